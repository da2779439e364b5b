// A run: a sheet opened over the lent rows, and every call of a list made on it by one test.
ghost use Rattle.std.specs.Prelude.{◌≡◌, ◌≤◌, ◌++◌, length, drop};
ghost use Rattle.promise.specs.Calls.{after_all, answers_to};
ghost use Rattle.promise.specs.Promise.{Ran};
ghost use Rattle.sheet.specs.State.{fresh};

use crate::applying::apply_all;
use crate::call::{Answer, Call};
use sheet::marks::Mark;
use sheet::open::OpenSheet;
use table::board::Board;
use table::refusal::Refusal;
use table::row::Row;
use table::testing::Test;

fn run_all<T: Test>(
    board: Board,
    rows: &mut [Row],
    test: &T,
    calls: &[Call<'_>],
    answers: &mut [Option<Answer>],
) -> [Mark; 8]
    requires { length calls.now ≤ length answers.old }
    ensures answers { answers.new ≡ answers_to (T.Test.meaning test.now) T.Test.wide (fresh board rows.old) calls.now ++ drop (length calls.now) answers.old }
    ensures rows { rows.new ≡ (after_all (T.Test.meaning test.now) T.Test.wide (fresh board rows.old) calls.now).rows }
    ensures marks { result ≡ (after_all (T.Test.meaning test.now) T.Test.wide (fresh board rows.old) calls.now).marks }
{
    let mut sheet = OpenSheet::open(board, rows);
    apply_all(&mut sheet, test, calls, answers);
    sheet.marks()
}

// Opens a sheet over the lent rows, makes every call of the list on it by the one test, and tells
// the marks at the end. Where there are fewer places for answers than calls, nothing is done.
pub fn run<T: Test>(
    board: Board,
    rows: &mut [Row],
    test: &T,
    calls: &[Call<'_>],
    answers: &mut [Option<Answer>],
) -> Result<[Mark; 8], Refusal>
    ensures promise { Ran (T.Test.meaning test.now) T.Test.wide board rows.old calls.now answers.old rows.new answers.new result }
{
    if answers.len() < calls.len() {
        return Err(Refusal::BufferTooShort);
    }
    Ok(run_all(board, rows, test, calls, answers))
}
