// The response test: all response times together, in rounds.
ghost use Rattle.table.specs.Rows.{plain};
ghost use Rattle.table.specs.Tasks.{listed};
ghost use Rattle.std.specs.Prelude.{◌≡◌};

use crate::prepared::CheckedTable;
use table::row::Row;

mod rounds;
mod settling;

pub use rounds::respond;
pub use settling::settle;

// The first round that equals the list before it, and the list: a bound for each task, else 0.
#[derive(Clone, Copy, PartialEq, Eq, Debug)]
pub struct Settled {
    pub round: u32,
    pub bounds: [u32; 64],
}

// The first round in which a task has no bound, and the smallest such number.
#[derive(Clone, Copy, PartialEq, Eq, Debug)]
pub struct Unbounded {
    pub task: usize,
    pub round: u32,
}

// Why nothing was settled.
#[derive(Clone, Copy, PartialEq, Eq, Debug)]
pub enum Unsettled {
    TooShort,
    NoBound(Unbounded),
}

// The rows, for their ranks, and their tasks, checked once for all rounds.
#[derive(Clone, Copy)]
struct Ranked<'a> {
    rows: &'a [Row],
    table: CheckedTable,
    ghost checked: { listed table.tasks ≡ plain rows.now },
}
