// Judging the present ranks of a core: they pass, or the task of highest rank without a bound.
ghost use Rattle.ordering.specs.Judging.{Judges, fails, higher_of, unbound};
ghost use Rattle.table.specs.Rows.{on_core};
ghost use Rattle.table.specs.Sets.{members};
ghost use Rattle.std.specs.Prelude.{◌≡◌, Some};

use table::asking::Asking;
use table::board::Board;
use table::ranks::rank_at;
use table::row::Row;
use table::set::TaskSet;
use table::tasks::NUMBERS;
use table::testing::Test;

// Whether a number is one of the tasks and has no bound under the present ranks.
fn is_failing<T: Test>(asking: &Asking<'_, T>, tasks: &TaskSet, number: usize) -> bool
    ensures { result ≡ fails (T.Test.meaning asking.now.test.now asking.now.board asking.now.rows.now) asking.now.rows.now (members tasks.now) number }
{
    tasks.has(number) && asking.ask_ranked(number).is_none()
}

// Of a task found before and a number, that of higher rank.
fn higher_one(rows: &[Row], found: Option<usize>, number: usize) -> usize
    ensures { Some result ≡ higher_of rows.now found number }
{
    match found {
        Some(other) if rank_at(rows, other) <= rank_at(rows, number) => other,
        _ => number,
    }
}

// Of the tasks that have no bound, that of highest rank.
fn highest_failing<T: Test>(asking: &Asking<'_, T>, tasks: &TaskSet) -> Option<usize>
    ensures { result ≡ unbound (T.Test.meaning asking.now.test.now asking.now.board asking.now.rows.now) asking.now.rows.now (members tasks.now) }
{
    let mut found = None;
    for number in 0..NUMBERS {
        if is_failing(asking, tasks, number) {
            found = Some(higher_one(asking.rows(), found, number));
        }
    }
    found
}

// The task of highest rank on the core without a bound under the present ranks, or none: then the
// present ranks pass.
pub fn find_unbound<T: Test>(board: &Board, rows: &[Row], core: u8, test: &T) -> Option<usize>
    ensures answer { result ≡ unbound (T.Test.meaning test.now board.now rows.now) rows.now (on_core rows.now core) }
    ensures judges { Judges (T.Test.meaning test.now board.now rows.now) rows.now core result }
{
    let asking = Asking::new(test, board, rows);
    highest_failing(&asking, &TaskSet::of_core(rows, core))
}
