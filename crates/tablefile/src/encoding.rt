// A record's 48 bytes.
ghost use Rattle.std.specs.Prelude.{◌≡◌};
ghost use Rattle.tablefile.specs.Layout.{record_bytes};
ghost use Rattle.tablefile.specs.Numbers.{Four};

use crate::records::Record;

// The bytes that spell a record. An array's length is known where the array is taken apart, and not
// inside a list of rows: so this says that there are four figures of X and of Y.
pub(crate) fn record_bytes(record: &Record) -> [u8; 48]
    ensures answer { result ≡ record_bytes «record».now }
    ensures four { Four «record».now.row.figures }
{
    let row = &record.row;
    let f = &row.figures;
    let [x0, x1, x2, x3] = f.sensitivity;
    let [y0, y1, y2, y3] = f.stress;
    let words = [f.cost, f.period, f.deadline, x0, x1, x2, x3, y0, y1, y2, y3];
    let mut bytes = [0; 48];
    bytes[..4].copy_from_slice(&[record.number, row.core, row.rank, record.fourth]);
    // By places: in a loop over what `chunks_exact_mut` lends, no invariant can name the bytes.
    for (i, word) in words.iter().enumerate() {
        bytes[4 + 4 * i..8 + 4 * i].copy_from_slice(&word.to_be_bytes());
    }
    bytes
}
