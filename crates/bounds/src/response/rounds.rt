// Rounds of bounds, until one equals the list before it.
ghost use Rattle.std.specs.Prelude.{◌≡◌, if◌then◌else◌, Some};
ghost use Rattle.bounds.specs.Demand.{cost};
ghost use Rattle.bounds.specs.Endings.{Ends};
ghost use Rattle.bounds.specs.Rounds.{bound_after, response, round_after, settled, start};
ghost use Rattle.bounds.specs.Solutions.{SettlesLeast};
ghost use Rattle.table.specs.Rows.{on_board};

use crate::lengths::Lengths;
use crate::prepared::{CheckedTable, RivalTable};
use crate::response::{Ranked, Settled, Unbounded};
use std::array;
use table::board::Board;
use table::row::Row;
use table::set::TaskSet;

impl Ranked<'_> {
    // C of a task on the board, or 0.
    fn cost_at(&self, number: usize) -> u32
        ensures { result ≡ (if on_board self.now.table.board self.now.rows.now number then cost self.now.rows.now number else 0) }
    {
        self.table.task(number).map_or(0, |task| task.figures.cost)
    }

    // The list that the rounds start from.
    fn costs(&self) -> [u32; 64]
        ensures { result ≡ start self.now.table.board self.now.rows.now }
    {
        array::from_fn(|number| self.cost_at(number))
    }

    // What a round has for a number: the bound of a task under its rank, and 0 for what is none.
    fn bound_at(&self, rivals: &RivalTable, number: usize) -> Option<u32>
        requires { rivals.now.table ≡ self.now.table }
        ensures { result ≡ bound_after self.now.table.board self.now.rows.now rivals.now.ahead.of number }
    {
        match self.table.task(number) {
            Some(_) => rivals.ask(number, &TaskSet::higher_ranked(self.rows, number)),
            None => Some(0),
        }
    }

    // One round: the bounds from the list before it, or the smallest number that has none. By a loop:
    // `array::try_from_fn` tells that a number has none, and not that it is the smallest.
    fn round(&self, before: Lengths) -> Result<[u32; 64], usize>
        ensures { result ≡ round_after self.now.table.board self.now.rows.now before.of }
    {
        let rivals = self.table.with_lengths(before);
        let mut bounds = [0; 64];
        for (number, bound) in bounds.iter_mut().enumerate() {
            *bound = self.bound_at(&rivals, number).ok_or(number)?;
        }
        Ok(bounds)
    }

    // Round after round.
    fn run(&self) -> Result<Settled, Unbounded>
        ensures { response self.now.table.board self.now.rows.now ≡ Some result }
    {
        let mut before = self.costs();
        let mut round: u32 = 1;
        loop {
            let bounds = self
                .round(Lengths { of: before })
                .map_err(|task| Unbounded { task, round })?;
            if bounds == before {
                return Ok(Settled { round, bounds });
            }
            before = bounds;
            round += 1;
        }
    }
}

// The response test of a whole table under its present ranks.
pub fn respond(board: &Board, rows: &[Row]) -> Result<Settled, Unbounded>
    ensures answer { result ≡ settled board.now rows.now }
    ensures enough { response board.now rows.now ≡ Some result }
    ensures ends { Ends board.now rows.now result }
    ensures least { SettlesLeast board.now rows.now result }
{
    let table = CheckedTable::of(board, rows);
    Ranked { rows, table }.run()
}
