// The open sheet: the only one that can be edited.
use crate::marks::Mark;
use table::board::Board;
use table::row::Row;

// Opening it over a lent list.
mod opening;
// Entering, withdrawing and amending.
mod editing;
// Loading a file.
mod loading;
// Judging and ordering a core.
mod passing;
// What can be read without a change.
mod reading;
// Closing it.
mod closing;

#[derive(Drop)]
pub struct OpenSheet<'a> {
    pub(crate) board: Board,
    pub(crate) rows: &'a mut [Row],
    pub(crate) marks: [Mark; 8],
}
