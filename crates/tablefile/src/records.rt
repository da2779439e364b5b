// A record: what 48 bytes of a file spell.
use table::row::Row;

#[derive(Clone, Copy, PartialEq, Eq, Debug)]
pub struct Record {
    // The number of the row.
    pub number: u8,
    // The byte after the rank, which is 0 in every file that was written here.
    pub fourth: u8,
    pub row: Row,
}
