// A block's 512 bytes.
ghost use Rattle.std.specs.Prelude.{◌≡◌, ◌≤◌, length};
ghost use Rattle.tablefile.specs.Layout.{block_bytes};
ghost use Rattle.tablefile.specs.Numbers.{AllFour, AllWithin, records_for};

use crate::check::reckon_check;
use crate::encoding::record_bytes;
use crate::records::Record;
use table::board::Board;
use table::row::Row;

// A block with the rows of the chosen numbers. Places that none takes stay zero.
pub(crate) fn block_bytes(board: &Board, number: u8, rows: &[Row], chosen: &[u8]) -> [u8; 512]
    requires few { length chosen.now ≤ 10 }
    requires within { AllWithin chosen.now rows.now }
    ensures answer { result ≡ block_bytes board.now number (records_for rows.now chosen.now) }
    ensures four { AllFour chosen.now rows.now }
{
    let [high, low] = u16::from(number).to_be_bytes();
    let count = chosen.len() as u8;
    let mut bytes = [0; 512];
    bytes[..8].copy_from_slice(&[high, low, count, board.cores, board.resources, 0, 0, 0]);
    // By places, as in `record_bytes`.
    for (p, number) in chosen.iter().enumerate() {
        let record = Record {
            number: *number,
            fourth: 0,
            row: rows[*number as usize],
        };
        bytes[8 + 48 * p..56 + 48 * p].copy_from_slice(&record_bytes(&record));
    }
    let check = reckon_check(&bytes[..510]);
    bytes[510..].copy_from_slice(&check.to_be_bytes());
    bytes
}
