// The search for an order: generic in the test, and proved from its laws alone.
ghost use Rattle.std.specs.Prelude.{◌≡◌, ◌≤◌};
ghost use Rattle.ordering.specs.Search.{DecidesOrder, FewTrials, first_taker, search_for, tried};
ghost use Rattle.ordering.specs.Told.{outcome_of};
ghost use Rattle.table.specs.Rows.{on_core};
ghost use Rattle.table.specs.Sets.{members};

use crate::order::{Found, NoOrder, Order};
use shortlist::ShortList;
use table::asking::Asking;
use table::board::Board;
use table::row::Row;
use table::set::TaskSet;
use table::tasks::NUMBERS;
use table::testing::Test;

// One place: the number that takes it, and how many tasks were tried.
#[derive(Clone, Copy)]
struct Taker {
    number: Option<usize>,
    trials: u32,
}

// The tasks that are left are tried by rising number, each with the others above it. By a loop: `find`
// would not tell how many were tried.
fn find_taker<T: Test>(asking: &Asking<'_, T>, tasks: &TaskSet) -> Taker
    ensures number { result.number ≡ first_taker (T.Test.meaning asking.now.test.now asking.now.board asking.now.rows.now) (members tasks.now) }
    ensures trials { result.trials ≡ tried (members tasks.now) result.number }
{
    let mut trials: u32 = 0;
    for k in 0..NUMBERS {
        if tasks.has(k) {
            trials += 1;
            if asking.ask(k, &tasks.without(k)).is_some() {
                return Taker {
                    number: Some(k),
                    trials,
                };
            }
        }
    }
    Taker {
        number: None,
        trials,
    }
}

// Places are filled from the lowest.
fn fill_places<T: Test>(asking: &Asking<'_, T>, tasks: TaskSet) -> Result<Found, NoOrder>
    ensures { outcome_of result ≡ search_for (T.Test.meaning asking.now.test.now asking.now.board asking.now.rows.now) (members tasks) }
{
    let mut left = tasks;
    let count = left.size();
    let mut numbers = ShortList::new();
    let mut trials = 0;
    for placed in 0..count {
        let taker = find_taker(asking, &left);
        trials += taker.trials;
        let Some(number) = taker.number else {
            return Err(NoOrder {
                trials,
                unplaced: count - placed,
            });
        };
        numbers.push(number);
        left = left.without(number);
    }
    Ok(Found {
        order: Order { numbers },
        trials,
    })
}

// The order of a core's tasks that passes the test and is earlier than every other that does; or
// that there is none.
pub fn find_order<T: Test>(
    board: &Board,
    rows: &[Row],
    core: u8,
    test: &T,
) -> Result<Found, NoOrder>
    ensures answer { outcome_of result ≡ search_for (T.Test.meaning test.now board.now rows.now) (on_core rows.now core) }
    ensures decides { DecidesOrder (T.Test.meaning test.now board.now rows.now) (on_core rows.now core) (outcome_of result) }
    ensures trials { FewTrials (on_core rows.now core) (outcome_of result) }
{
    let asking = Asking::new(test, board, rows);
    fill_places(&asking, TaskSet::of_core(rows, core))
}
