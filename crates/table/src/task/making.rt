// Making a task of a row: the one check of the limits that name no board.
ghost use Rattle.table.specs.Rows.{plain_row};
ghost use Rattle.table.specs.Tasks.{row_of};
ghost use Rattle.std.specs.Prelude.{◌≡◌};

use crate::row::Row;
use crate::task::Task;

impl Task {
    // The task of a row, or none where the row counts as empty.
    pub fn of(row: &Row) -> Option<Task>
        ensures answer { row_of result ≡ plain_row row.now }
    {
        if row.holds_task() {
            Some(Task {
                core: row.core,
                figures: row.figures,
            })
        } else {
            None
        }
    }
}
