// Damage to a file: to its length, to a byte, or to a field of a block whose check is made good.
use crate::making::{File, make_good, put, resize};
use crate::model::loading::byte;
use naive::random::Random;

// A block of the file.
fn draw_block(random: &mut Random, file: &[u8]) -> usize {
    let blocks = (file.len() / 512).min(65) as u32;
    random.below(blocks) as usize
}

// A place in a block: often in one of the first records.
fn draw_place(random: &mut Random) -> usize {
    let place = if random.one_in(2) {
        random.below(512)
    } else {
        random.below(160)
    };
    place as usize
}

// Any byte of a block becomes another one.
fn flip(random: &mut Random, file: &mut [u8], start: usize) {
    let at = start.saturating_add(draw_place(random));
    let change = 1 + random.below(255) as u8;
    let old = byte(file, at);
    put(file, at, old ^ change);
}

// Another length: none, any, whole blocks, or one byte less.
fn cut(random: &mut Random, file: &mut File) {
    let length = match random.below(4) {
        0 => 0,
        1 => random.below(1600) as usize,
        2 => 512 * (1 + random.below(65) as usize),
        _ => file.len().saturating_sub(1),
    };
    resize(file, length);
}

// A field of a block becomes another; its check is not yet made good.
fn alter(random: &mut Random, file: &mut [u8], start: usize) {
    let place = random.below(10) as usize;
    let count = byte(file, start.saturating_add(2));
    match random.below(8) {
        // Another number of the block.
        0 => put(file, start, 1),
        1 => put(file, start.saturating_add(1), random.below(66) as u8),
        // One record too many for a block, or for the count of this one, or one too few.
        2 => put(file, start.saturating_add(2), 11),
        3 => put(file, start.saturating_add(2), count.saturating_add(1)),
        4 => put(file, start.saturating_add(2), count.saturating_sub(1)),
        // Another board.
        5 => put(
            file,
            start.saturating_add(3 + place % 2),
            1 + random.below(9) as u8,
        ),
        // The fourth byte of a record, or of a place without one.
        6 => put(file, start.saturating_add(11 + 48 * place), 1),
        // A byte that has to be zero.
        _ => put(file, start.saturating_add(488 + 2 * place), 1),
    }
}

pub(crate) fn spoil(random: &mut Random, file: &mut File) {
    let block = draw_block(random, file);
    let start = block.saturating_mul(512);
    match random.below(8) {
        0 => cut(random, file),
        1 => flip(random, file, start),
        2 | 3 => {
            flip(random, file, start);
            make_good(file, block);
        }
        _ => {
            alter(random, file, start);
            make_good(file, block);
        }
    }
}
