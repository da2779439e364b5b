// Random files, written byte by byte, and half of them damaged.
use crate::drafts::Habit;
use crate::model::{Draft, Model, loading};
use crate::{damage, drafts};
use arrayvec::ArrayVec;
use naive::files::words;
use naive::random::Random;

// One block more than a file may have.
const ROOM: usize = 33_280;

// There is always room for a file, so that no write fails, and what one answers is let go.
pub(crate) type File = ArrayVec<u8, ROOM>;

// Another length: the first bytes, or zeros behind the end.
pub(crate) fn resize(file: &mut File, length: usize) {
    file.truncate(length);
    for _ in file.len()..length.min(ROOM) {
        let _ = file.try_push(0);
    }
}

// Another value for a byte, if there is such a byte.
pub(crate) fn put(file: &mut [u8], at: usize, value: u8) {
    if let Some(byte) = file.get_mut(at) {
        *byte = value;
    }
}

// Stores the check of a block as its bytes are.
pub(crate) fn make_good(file: &mut [u8], block: usize) {
    let start = block.saturating_mul(512);
    let [_, _, high, low] = loading::total(file, start).to_be_bytes();
    put(file, start.saturating_add(510), high);
    put(file, start.saturating_add(511), low);
}

fn write_record(file: &mut File, draft: &Draft) {
    let number = (draft.number % 256) as u8;
    let filed = draft.filed;
    let _ = file.try_extend_from_slice(&[number, filed.core, filed.rank, draft.fourth]);
    for word in words(&filed.figures) {
        let _ = file.try_extend_from_slice(&word.to_be_bytes());
    }
}

// How many records a block has: few in a file of many blocks.
fn draw_count(random: &mut Random, blocks: usize) -> u8 {
    if blocks > 5 {
        if random.one_in(8) { 1 } else { 0 }
    } else if random.one_in(4) {
        random.below(11) as u8
    } else {
        random.below(4) as u8
    }
}

fn draw_blocks(random: &mut Random) -> usize {
    let blocks = match random.below(40) {
        0 => 63 + random.below(3),
        1..=10 => 2 + random.below(4),
        _ => 1,
    };
    blocks as usize
}

// A record for a sheet, which is carried along, so that later records suit the earlier ones. Unless
// any is taken, a refused one is drawn again a few times.
fn draw_record(random: &mut Random, ahead: &mut Model, habit: &Habit, any: bool) -> Draft {
    let mut draft = drafts::draw_draft(random, ahead, habit);
    for _ in 0..4 {
        if ahead.enter(&draft).is_ok() || any {
            return draft;
        }
        draft = drafts::draw_draft(random, ahead, habit);
    }
    draft
}

// What the records of a file are drawn with: a model that is carried along, and whether any record
// is taken.
#[derive(Clone, Copy)]
struct Drawing<'a> {
    ahead: Model,
    habit: &'a Habit,
    any: bool,
}

// One block more, of so many.
fn write_block(
    file: &mut File,
    random: &mut Random,
    drawing: &mut Drawing<'_>,
    block: usize,
    blocks: usize,
) {
    let count = draw_count(random, blocks);
    let board = drawing.ahead.board;
    let number = (block % 256) as u8;
    let _ = file.try_extend_from_slice(&[0, number, count, board.cores, board.resources, 0, 0, 0]);
    for _ in 0..count {
        let draft = draw_record(random, &mut drawing.ahead, drawing.habit, drawing.any);
        write_record(file, &draft);
    }
    resize(file, block.saturating_add(1).saturating_mul(512));
    make_good(file, block);
}

// A file whose blocks are sound; in half of them the records are too, nearly always.
fn draw_sound(random: &mut Random, model: &Model, habit: &Habit) -> File {
    let blocks = draw_blocks(random);
    let mut drawing = Drawing {
        ahead: *model,
        habit,
        any: random.one_in(2),
    };
    let mut file = File::new();
    for block in 0..blocks {
        write_block(&mut file, random, &mut drawing, block, blocks);
    }
    file
}

pub(crate) fn draw_file(random: &mut Random, model: &Model, habit: &Habit) -> File {
    let mut file = draw_sound(random, model, habit);
    if random.one_in(2) {
        damage::spoil(random, &mut file);
    }
    file
}
