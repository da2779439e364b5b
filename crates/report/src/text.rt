// Text that is put together in memory of its own: at most 8,192 bytes, more than any report has.
ghost use Rattle.std.specs.Prelude.{◌≤◌, length};
ghost use Rattle.shortlist.specs.Items.{items};

use shortlist::ShortList;

mod adding;

#[derive(Clone, Copy)]
pub struct Text {
    bytes: ShortList<u8, 8192>,
    ghost few: { length (items bytes) ≤ 8192 },
}
