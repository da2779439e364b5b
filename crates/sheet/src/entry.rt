// What a person enters, and what a record of a file asks to enter.
ghost use Rattle.sheet.specs.Editing.{entry_of, row_of};
ghost use Rattle.std.specs.Prelude.{◌≡◌};

use table::row::{Figures, Row};
use tablefile::records::Record;

// A task to be entered under a number.
#[derive(Clone, Copy)]
pub struct Entry {
    pub number: usize,
    pub core: u8,
    pub rank: u8,
    pub figures: Figures,
}

// The entry that a record of a file stands for.
impl From<&Record> for Entry {
    ghost from_gives = { λ filed entry. entry ≡ entry_of filed.now };

    fn from(filed: &Record) -> Entry {
        let Record { number, row, .. } = *filed;
        Entry {
            number: usize::from(number),
            core: row.core,
            rank: row.rank,
            figures: row.figures,
        }
    }
}

impl Entry {
    // The row that is written for it.
    pub(crate) fn row(&self) -> Row
        ensures answer { result ≡ row_of self.now }
    {
        Row {
            used: true,
            core: self.core,
            rank: self.rank,
            figures: self.figures,
        }
    }
}
