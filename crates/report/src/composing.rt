// A report put together: the board, then each core, then each task by rising number.
ghost use Rattle.std.specs.Prelude.{◌≡◌, ◌+◌, ◌≤◌, ◌++◌, length};
ghost use Rattle.report.specs.Report.{line_of_core, line_of_number, report_text};
ghost use Rattle.report.specs.Texts.{shown};
ghost use Rattle.sheet.specs.State.{State};
ghost use Rattle.tablefile.specs.Parts.{laid};

use crate::lines::{push_core, push_head, push_task};
use crate::text::Text;
use sheet::marks::Mark;
use table::asking::Asking;
use table::board::Board;
use table::row::Row;
use table::tasks::is_task;
use table::testing::Test;

fn push_cores(text: &mut Text, board: &Board, marks: &[Mark; 8])
    requires { length (shown text.old) + 320 ≤ 8192 }
    ensures shows { shown text.new ≡ shown text.old ++ laid board.now.cores (line_of_core marks.now) }
    ensures near { length (shown text.new) ≤ length (shown text.old) + 320 }
{
    for k in 0..board.cores {
        push_core(text, k, marks[k as usize].is_standing());
    }
}

// The line of a number, if it has a task.
fn push_number<T: Test>(text: &mut Text, asking: &Asking<'_, T>, number: u8)
    requires { length (shown text.old) + 84 ≤ 8192 }
    ensures shows { shown text.new ≡ shown text.old ++ line_of_number (T.Test.meaning asking.now.test.now asking.now.board asking.now.rows.now) asking.now.rows.now number }
    ensures near { length (shown text.new) ≤ length (shown text.old) + 84 }
{
    let n = number as usize;
    let rows = asking.rows();
    if is_task(rows, n) && n < rows.len() {
        push_task(text, number, &rows[n], asking.ask_ranked(n));
    }
}

fn push_numbers<T: Test>(text: &mut Text, asking: &Asking<'_, T>)
    requires { length (shown text.old) + 5376 ≤ 8192 }
    ensures shows { shown text.new ≡ shown text.old ++ laid 64 (line_of_number (T.Test.meaning asking.now.test.now asking.now.board asking.now.rows.now) asking.now.rows.now) }
{
    for number in 0..64 {
        push_number(text, asking, number);
    }
}

// The report of a board, rows and marks for a test; the rows are prepared once.
pub(crate) fn compose<T: Test>(board: &Board, rows: &[Row], marks: &[Mark; 8], test: &T) -> Text
    ensures answer { shown result ≡ report_text (T.Test.meaning test.now) (record { board = board.entry.now; rows = rows.now; marks = marks.now }) }
{
    let asking = Asking::new(test, board, rows);
    let mut text = Text::new();
    push_head(&mut text, board);
    push_cores(&mut text, board, marks);
    push_numbers(&mut text, &asking);
    text
}
