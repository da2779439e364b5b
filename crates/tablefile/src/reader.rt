// The bytes of a file, handed out in parts.
ghost use Rattle.std.specs.Prelude.{◌≡◌, ◌/◌, length};
ghost use Rattle.tablefile.specs.Reading.{block_at, count_at, record_at};

use crate::parts::part_of;

#[derive(Drop)]
pub struct Reader<'a> {
    bytes: &'a [u8],
}

impl<'a> Reader<'a> {
    pub fn new(bytes: &'a [u8]) -> Self
        ensures answer { result.bytes.now ≡ bytes.now }
    {
        Reader { bytes }
    }

    // How many whole blocks the file has.
    pub fn blocks(&self) -> usize
        ensures answer { result ≡ length self.now.bytes.now / 512 }
    {
        self.bytes.len() / 512
    }

    // The bytes of a block; fewer than 512 where the file ends first.
    pub fn block(&self, number: u8) -> &'a [u8]
        ensures answer { result.now ≡ block_at self.now.bytes.now number }
    {
        part_of(self.bytes, 512 * number as usize, 512)
    }

    // The count that a block states; 0 past the end of the file.
    pub fn count(&self, number: u8) -> u8
        ensures answer { result ≡ count_at self.now.bytes.now number }
    {
        let at = 512 * number as usize + 2;
        self.bytes.get(at).map_or(0, |count| *count)
    }

    // The bytes of a record, with its block and its position there. Ask for the count first: past
    // it stand bytes that are no record's, and past the end of the file there are none.
    pub fn record(&self, number: u8, position: u8) -> (&'a [u8], u8, u8)
        ensures answer { (result.0.now ≡ record_at self.now.bytes.now number position) × (result.1 ≡ number) × (result.2 ≡ position) }
    {
        let from = 512 * number as usize + 8 + 48 * position as usize;
        (part_of(self.bytes, from, 48), number, position)
    }
}
