// What the tests keep of a board and its rows, for many questions about them.
ghost use Rattle.bounds.specs.Gathering.{Gathers, rival_form};
ghost use Rattle.bounds.specs.Lengths.{length_of};
ghost use Rattle.shortlist.specs.Items.{items};
ghost use Rattle.table.specs.Rows.{on_board, row_at};
ghost use Rattle.table.specs.Tasks.{listed};

use crate::lengths::Lengths;
use crate::load::Loads;
use table::board::Board;
use table::tasks::Tasks;

mod asking;

// A board and the tasks of a row list, each checked once.
#[derive(Clone, Copy)]
pub struct CheckedTable {
    pub(crate) board: Board,
    pub(crate) tasks: Tasks,
}

// The same, with the loads of all tasks on the tasks of other cores. Their releases are counted
// from a length before the window that each number has.
#[derive(Clone, Copy)]
pub struct RivalTable {
    pub(crate) table: CheckedTable,
    pub(crate) ahead: Lengths,
    pub(crate) rivals: Loads,
    ghost gathered: { Gathers (on_board table.board (listed table.tasks)) (λ j. rival_form (length_of ahead.of j) (row_at (listed table.tasks) j)) 64 (items rivals) },
}
