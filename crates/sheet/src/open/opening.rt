// Opening a sheet over a list that the caller lends.
ghost use Rattle.sheet.specs.State.{fresh, state_of};
ghost use Rattle.std.specs.Prelude.{◌≡◌};

use crate::marks::Mark;
use crate::open::OpenSheet;
use table::board::Board;
use table::row::Row;
use table::tasks::capacity_of;

impl<'a> OpenSheet<'a> {
    // Empties the first 64 rows and leaves the rest; every core begins loose.
    pub fn open(board: Board, rows: &'a mut [Row]) -> OpenSheet<'a>
        ensures after { state_of result ≡ fresh board rows.old }
        ensures lent { result.rows.ghost_name ≡ rows.entry.ghost_name }
    {
        let n = capacity_of(rows);
        rows[..n].fill(Row::EMPTY);
        OpenSheet {
            board,
            rows,
            marks: [Mark::Loose; 8],
        }
    }
}
