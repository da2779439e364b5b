// Writing an order as ranks, and the whole ordering of a core.
ghost use Rattle.std.specs.Prelude.{◌≡◌, ℕ};
ghost use Rattle.ordering.specs.Search.{FewTrials, search_for};
ghost use Rattle.ordering.specs.Told.{numbers_of, outcome_of};
ghost use Rattle.ordering.specs.Writing.{OrdersCore, Writes, after_search, written};
ghost use Rattle.table.specs.Rows.{on_core};

use crate::order::{Found, NoOrder, Order};
use crate::search::find_order;
use table::board::Board;
use table::row::Row;
use table::testing::Test;

// Rank n for the lowest place, down to 1 for the highest; a number past the list changes nothing.
pub fn write_ranks(rows: &mut [Row], order: &Order)
    ensures rows { rows.new ≡ written rows.old (numbers_of order.now) }
    ensures writes { Writes rows.old (numbers_of order.now) rows.new }
{
    let n = order.numbers.len();
    for (place, number) in order.numbers.as_slice().iter().enumerate() {
        if *number < rows.len() {
            rows[*number].rank = (n - place) as u8;
        }
    }
}

// Finds the first order of a core's tasks that passes and writes its ranks; where there is none, it
// writes nothing.
pub fn order_core<T: Test>(
    board: &Board,
    rows: &mut [Row],
    core: u8,
    test: &T,
) -> Result<Found, NoOrder>
    ensures answer { outcome_of result ≡ search_for (T.Test.meaning test.now board.now rows.old) (on_core rows.old core) }
    ensures trials { FewTrials (on_core rows.old core) (outcome_of result) }
    ensures rows { rows.new ≡ after_search rows.old (outcome_of result) }
    ensures orders { OrdersCore (T.Test.meaning test.now board.now) rows.old core (outcome_of result) rows.new }
{
    let found = find_order(board, rows, core, test)?;
    write_ranks(rows, &found.order);
    Ok(found)
}
