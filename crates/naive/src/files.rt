// The file of a table, each byte reckoned from its place alone.
ghost use Rattle.naive.specs.Answers.{words_of};
ghost use Rattle.std.specs.Prelude.{◌≡◌, ◌<◌, ◌≤◌};

use crate::recurrence::task;
use arrayvec::ArrayVec;
use table::board::Board;
use table::row::{Figures, Row};

// A task of the table, with its number.
#[derive(Clone, Copy)]
struct Numbered {
    number: u8,
    row: Row,
}

// What an unused place of a list holds.
impl Default for Numbered {
    fn default() -> Numbered {
        Numbered {
            number: 0,
            row: Row::EMPTY,
        }
    }
}

// What a file holds: the tasks of a table, by rising number. They are listed once, since each byte of
// a record asks for its task.
#[derive(Drop)]
pub(crate) struct Filed {
    board: Board,
    tasks: ArrayVec<Numbered, 64>,
}

pub(crate) fn file_of(board: &Board, rows: &[Row]) -> Filed {
    let mut tasks = ArrayVec::new();
    for number in 0..64 {
        if let Some(row) = task(rows, usize::from(number)) {
            // There are as many places as numbers.
            let _ = tasks.try_push(Numbered { number, row });
        }
    }
    Filed {
        board: *board,
        tasks,
    }
}

// The fields of four bytes, in their order.
pub fn words(figures: &Figures) -> [u32; 11]
    ensures answer { result ≡ words_of figures.now }
{
    let [x0, x1, x2, x3] = figures.sensitivity;
    let [y0, y1, y2, y3] = figures.stress;
    let Figures {
        cost,
        period,
        deadline,
        ..
    } = *figures;
    [cost, period, deadline, x0, x1, x2, x3, y0, y1, y2, y3]
}

fn record_byte(task: &Numbered, at: usize) -> u8
    requires { at < 48 }
{
    match at {
        0 => task.number,
        1 => task.row.core,
        2 => task.row.rank,
        3 => 0,
        _ => words(&task.row.figures)[at / 4 - 1].to_be_bytes()[at % 4],
    }
}

impl Filed {
    // How many bytes the file has: another block for each ten tasks that are full.
    pub(crate) fn size(&self) -> usize {
        512 * self.tasks.len().div_ceil(10).max(1)
    }

    // A byte of the k-th record, or of the place where it would be.
    fn listed_byte(&self, k: usize, at: usize) -> u8
        requires { at < 48 }
    {
        match self.tasks.get(k) {
            Some(task) => record_byte(task, at),
            None => 0,
        }
    }

    // A byte of a block before its check.
    fn front_byte(&self, block: usize, at: usize) -> u8
        requires { block ≤ 7 }
    {
        let before = block * 10;
        match at {
            1 => block as u8,
            2 => self.tasks.len().saturating_sub(before).min(10) as u8,
            3 => self.board.cores,
            4 => self.board.resources,
            8..488 => self.listed_byte(before + (at - 8) / 48, (at - 8) % 48),
            _ => 0,
        }
    }

    fn total(&self, block: usize) -> u32
        requires { block ≤ 7 }
    {
        (0..510).fold(0, |sum: u32, at| {
            sum.saturating_add(u32::from(self.front_byte(block, at)))
        })
    }

    pub(crate) fn byte(&self, at: usize) -> u8 {
        let block = (at / 512).min(7);
        match at % 512 {
            510 => self.total(block).to_be_bytes()[2],
            511 => self.total(block).to_be_bytes()[3],
            within => self.front_byte(block, within),
        }
    }
}
