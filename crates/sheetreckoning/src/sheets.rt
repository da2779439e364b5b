// Random sheets, each under a list of random calls.
use crate::calls::Beside;
use crate::counts::Counts;
use crate::drafts;
use crate::model::Model;
use naive::random::Random;
use naive::tables;
use sheet::open::OpenSheet;
use table::row::Row;

// How many calls before a sheet is closed and reopened, and how many after.
const CALLS: u32 = 100;

// Any rows, as they may stand in a list before it is lent.
fn draw_garbage(random: &mut Random) -> [Row; 70] {
    let table = tables::draw_table(random);
    table.rows
}

// How long the list is: seldom shorter than a few rows.
fn draw_length(random: &mut Random) -> usize {
    let length = match random.below(4) {
        0 => random.below(71),
        1 => 60 + random.below(11),
        _ => 8 + random.below(30),
    };
    length as usize
}

// One sheet: opened, called, closed and reopened, and called again.
pub(crate) fn one_sheet(counts: &mut Counts, random: &mut Random) {
    let board = tables::draw_board(random, 8);
    let lent = draw_garbage(random);
    let length = draw_length(random).min(70);
    let mut rows = lent;
    let mut beside = Beside {
        sheet: OpenSheet::open(board, &mut rows[0..length]),
        model: Model::open(board, length),
        lent: &lent[0..length],
        habit: drafts::draw_habit(random),
    };
    counts.note_opening(beside.agrees());
    for _ in 0..CALLS {
        beside.one_call(counts, random);
    }
    let mut beside = beside.reopened();
    counts.note_closing(beside.agrees());
    for _ in 0..CALLS {
        beside.one_call(counts, random);
    }
}
