// The response test's list, written into one that the caller lends.
ghost use Rattle.bounds.specs.Settling.{SettlesInto, after_settle, refusal_of, settle_answer};
ghost use Rattle.bounds.specs.declared.response.Unsettled.TheVariants.{NoBound};
ghost use Rattle.std.specs.Prelude.{◌≡◌, length};

use crate::response::rounds::respond;
use crate::response::{Unbounded, Unsettled};
use table::board::Board;
use table::refusal::Refusal;
use table::row::Row;
use table::tasks::capacity_of;

impl Unsettled {
    // The refusal that it is.
    pub fn refusal(&self) -> Refusal
        ensures answer { result ≡ refusal_of self.now }
    {
        match self {
            Unsettled::TooShort => Refusal::BufferTooShort,
            Unsettled::NoBound(_) => Refusal::NoBound,
        }
    }
}

impl From<Unbounded> for Unsettled {
    ghost from_gives = { λ unbounded unsettled. unsettled ≡ NoBound unbounded };

    fn from(unbounded: Unbounded) -> Unsettled {
        Unsettled::NoBound(unbounded)
    }
}

// Writes a bound for each row, 0 for an empty one, and tells the round; on refusal it writes
// nothing. The list needs as many places as the rows have numbers; what is behind them is left.
pub fn settle(board: &Board, rows: &[Row], times: &mut [u32]) -> Result<u32, Unsettled>
    ensures answer { result ≡ settle_answer board.now rows.now (length times.old) }
    ensures buffer { times.new ≡ after_settle board.now rows.now times.old }
    ensures settles { SettlesInto board.now rows.now times.old result times.new }
{
    let room = capacity_of(rows);
    if times.len() < room {
        return Err(Unsettled::TooShort);
    }
    let settled = respond(board, rows)?;
    times[..room].copy_from_slice(&settled.bounds[..room]);
    Ok(settled.round)
}
