// The deadline test: for each resource and other core, contention is the lesser of what that core
// can inflict and what the own core can suffer. It is wide.
ghost use Rattle.bounds.specs.Bounds.{BoundsLeast, ahead_bound, deadline_bound};
ghost use Rattle.bounds.specs.Lengths.{length_of};
ghost use Rattle.bounds.specs.Rules.{deadline_rule};
ghost use Rattle.table.specs.Sets.{members};
ghost use Rattle.table.specs.Tasks.{listed};
ghost use Rattle.std.specs.Prelude.{◌≡◌, true};
ghost use Rattle.bounds.specs.Tested.{deadline_laws};

use crate::prepared::{CheckedTable, RivalTable};
use table::board::Board;
use table::row::Row;
use table::set::TaskSet;
use table::testing::Test;

#[derive(Clone, Copy, PartialEq, Eq, Debug)]
pub struct Deadline;

impl Test for Deadline {
    type Prepared = RivalTable;

    const WIDE: bool = true;

    ghost WIDE = { true };

    ghost wide = { true };

    ghost meaning = { λ _. deadline_bound };

    ghost answers = { λ _ p. ahead_bound (length_of p.ahead.of) p.table.board (listed p.table.tasks) };

    ghost laws = { λ _. deadline_laws };

    fn is_wide(&self) -> bool
        ensures answer { result ≡ true }
        ensures states { result ≡ ⟦<Deadline as Test>⟧.WIDE }
    {
        Self::WIDE
    }

    fn prepare(&self, board: &Board, rows: &[Row]) -> RivalTable {
        CheckedTable::of(board, rows).with_deadlines()
    }

    fn ask(&self, prepared: &RivalTable, number: usize, above: &TaskSet) -> Option<u32> {
        prepared.ask(number, above)
    }

    // As the trait writes it, for what is promised here besides: that it is the least.
    fn bound(&self, board: &Board, rows: &[Row], number: usize, above: &TaskSet) -> Option<u32>
        ensures answer { result ≡ deadline_bound board.now rows.now number (members above.now) }
        ensures least { BoundsLeast deadline_rule board.now rows.now number (members above.now) result }
    {
        let prepared = self.prepare(board, rows);
        self.ask(&prepared, number, above)
    }
}
