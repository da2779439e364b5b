// The response test, round by round, each reckoned anew.
ghost use Rattle.naive.specs.Rounds.{AreEntries, Ends, IsEntry};
ghost use Rattle.std.specs.Option.{is_some};
ghost use Rattle.std.specs.Prelude.{◌≡◌, true, IfErr, IfOk};
ghost use Rattle.table.specs.Rows.{on_board};

use crate::recurrence;
use crate::recurrence::{Kind, Question, task};
use std::array;
use table::board::Board;
use table::row::Row;

// How many rounds are tried.
const ROUNDS: u32 = 1000;

// The bounds, by number, and the round that gave them again.
#[derive(Clone, Copy, PartialEq, Eq)]
pub struct Settled {
    pub bounds: [u32; 64],
    pub round: u32,
}

#[derive(Clone, Copy, PartialEq, Eq)]
pub enum Unsettled {
    // A task has no bound in a round.
    Unbounded { task: usize, round: u32 },
    // No end was found in the rounds that were tried.
    Open,
}

// The row of a number that has a task on the board.
fn task_on(board: &Board, rows: &[Row], number: usize) -> Option<Row>
    ensures { is_some result ≡ on_board board.now rows.now number }
{
    let Some(row) = task(rows, number) else {
        return None;
    };
    if row.core < board.cores {
        Some(row)
    } else {
        None
    }
}

// C of each task of the board, and 0 for the other numbers.
fn start(board: &Board, rows: &[Row]) -> [u32; 64] {
    array::from_fn(|k| task_on(board, rows, k).map_or(0, |row| row.figures.cost))
}

// The next entry of a number; or the number, if it is a task without a bound.
fn next_entry(board: &Board, rows: &[Row], list: &[u32; 64], number: usize) -> Result<u32, usize>
    ensures entry { IfOk result (λ t. IsEntry board.now rows.now number t) }
    ensures unbounded { IfErr result (λ task. on_board board.now rows.now task ≡ true) }
{
    if task_on(board, rows, number).is_none() {
        return Ok(0);
    }
    let question = Question {
        kind: Kind::Deadline,
        board: *board,
        rows,
        number,
        above: recurrence::above(rows, number),
        ahead: *list,
    };
    question.bound().ok_or(number)
}

// The next list, or the smallest number without a bound. (What `try_from_fn` promises leaves open
// over which rows its closure was called.)
fn next(board: &Board, rows: &[Row], list: &[u32; 64]) -> Result<[u32; 64], usize>
    ensures entries { IfOk result (λ all. AreEntries board.now rows.now all 64) }
    ensures unbounded { IfErr result (λ task. on_board board.now rows.now task ≡ true) }
{
    let mut all = [0; 64];
    for (number, entry) in all.iter_mut().enumerate() {
        *entry = next_entry(board, rows, list, number)?;
    }
    Ok(all)
}

// The rounds, until one gives its list again or a task has no bound.
pub fn settle(board: &Board, rows: &[Row]) -> Result<Settled, Unsettled>
    ensures answer { Ends board.now rows.now result }
{
    let mut bounds = start(board, rows);
    for round in 1..=ROUNDS {
        let all = next(board, rows, &bounds).map_err(|task| Unsettled::Unbounded { task, round })?;
        if all == bounds {
            return Ok(Settled { bounds, round });
        }
        bounds = all;
    }
    Err(Unsettled::Open)
}
