// What the analyser writes beside the file reckoned byte by byte.
ghost use Rattle.naive.specs.Tallies.{one_more};
ghost use Rattle.std.specs.Prelude.{◌≡◌, true};

use crate::files;
use crate::files::Filed;
use crate::random::Random;
use crate::tables::Table;
use crate::tally::Tally;
use tablefile::writing::write_file;

const ROOM: usize = 3600;

// What stands in the buffer before.
const BEFORE: u8 = 0xa5;

// The first `size` bytes are the file's, and the others are as before.
fn is_written(file: &Filed, size: usize, out: &[u8]) -> bool {
    out.iter().enumerate().all(|(k, found)| {
        let expected = if k < size { file.byte(k) } else { BEFORE };
        *found == expected
    })
}

// One time in four the buffer may be too short.
fn draw_room(random: &mut Random) -> usize {
    if random.one_in(4) {
        random.below(1100) as usize
    } else {
        ROOM
    }
}

fn compare_file(tally: &mut Tally, table: &Table, out: &mut [u8])
    ensures { tally.new.questions ≡ one_more tally.old.questions true }
{
    let file = files::file_of(&table.board, table.rows());
    let size = file.size();
    let room = out.len();
    match write_file(&table.board, table.rows(), out) {
        Ok(told) => tally.note(
            true,
            told == size && size <= room && is_written(&file, size, out),
        ),
        // By its number: no type of refusals is shared.
        Err(refusal) => tally.note(
            false,
            refusal.number() == 14 && room < size && is_written(&file, 0, out),
        ),
    }
}

pub(crate) fn file(tally: &mut Tally, random: &mut Random, table: &Table)
    ensures { tally.new.questions ≡ one_more tally.old.questions true }
{
    let room = draw_room(random).min(ROOM);
    let mut out = [BEFORE; ROOM];
    compare_file(tally, table, &mut out[..room]);
}
