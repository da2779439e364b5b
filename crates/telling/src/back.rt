// What the bytes of a file say when they are read back.
ghost use Rattle.tablefile.specs.Reading.{count_at};
ghost use Rattle.telling.specs.Reading.{BlockSame, Checked, SameRow, blocks_in, total};
ghost use Rattle.std.specs.Prelude.{◌≡◌, ℕ, ◌+◌, ◌-◌, ◌^◌, ◌<◌, ◌↔◌, min, IsTrue};

use table::board::Board;
use table::refusal::Refusal;
use table::row::Row;
use tablefile::checking::{check_block, check_length};
use tablefile::decoding::decode;
use tablefile::reader::Reader;
use tablefile::records::Record;

// Seven blocks hold 64 tasks.
const BLOCKS: usize = 7;

// How many blocks are looked at.
fn blocks_in(reader: &Reader<'_>) -> u8
    ensures { result ≡ blocks_in reader.now.bytes.now }
{
    reader.blocks().min(BLOCKS) as u8
}

// All checks that a file has to pass, of its length and then of each block.
pub(crate) fn check_file(board: &Board, bytes: &[u8]) -> Result<(), Refusal>
    ensures { Checked board.now bytes.now result }
{
    check_length(bytes.len())?;
    let reader = Reader::new(bytes);
    let blocks = blocks_in(&reader);
    for number in 0..blocks {
        check_block(board, number, reader.block(number))?;
    }
    Ok(())
}

// Whether a record says what the row of its number says.
fn is_same(told: &Record, rows: &[Row]) -> bool
    ensures { IsTrue result ↔ SameRow rows.now told.now }
{
    rows.get(usize::from(told.number)) == Some(&told.row)
}

// The records that were read, and those among them that the table has.
#[derive(Clone, Copy)]
pub(crate) struct Tally {
    pub(crate) read: usize,
    pub(crate) same: usize,
}

impl Tally {
    // Counts a record.
    fn and_record(self, told: &Record, rows: &[Row]) -> Tally
        ensures read { result.read ≡ min (self.read + 1) (2 ^ 64 - 1) }
        ensures same { SameRow rows.now told.now → result.same ≡ min (self.same + 1) (2 ^ 64 - 1) }
        ensures other { ¬ (SameRow rows.now told.now) → result.same ≡ self.same }
    {
        Tally {
            read: self.read.saturating_add(1),
            same: self.same.saturating_add(usize::from(is_same(told, rows))),
        }
    }

    // Reads a block record by record.
    fn and_block(self, reader: &Reader<'_>, block: u8, rows: &[Row]) -> Tally
        ensures read { result.read ≡ min (self.read + count_at reader.now.bytes.now block) (2 ^ 64 - 1) }
        ensures same { BlockSame rows.now reader.now.bytes.now block → result.same ≡ min (self.same + count_at reader.now.bytes.now block) (2 ^ 64 - 1) }
    {
        let mut tally = self;
        let count = reader.count(block);
        for position in 0..count {
            let told = decode(reader.record(block, position).0);
            tally = tally.and_record(&told, rows);
        }
        tally
    }

    // Reads a whole file.
    pub(crate) fn of(bytes: &[u8], rows: &[Row]) -> Tally
        ensures read { result.read ≡ min (total (count_at bytes.now) (blocks_in bytes.now)) (2 ^ 64 - 1) }
        ensures same { ((k : ℕ) → k < blocks_in bytes.now → BlockSame rows.now bytes.now k) → result.same ≡ min (total (count_at bytes.now) (blocks_in bytes.now)) (2 ^ 64 - 1) }
    {
        let reader = Reader::new(bytes);
        let blocks = blocks_in(&reader);
        let mut tally = Tally { read: 0, same: 0 };
        for block in 0..blocks {
            tally = tally.and_block(&reader, block, rows);
        }
        tally
    }
}
