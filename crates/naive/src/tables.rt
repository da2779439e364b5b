// Random boards, rows and sets: small figures, so that most questions are close, and now and then
// rows that break a limit, lie past place 63 or name a core that the board lacks.
ghost use Rattle.std.specs.Prelude.{◌≡◌, ◌≤◌, max, take};

use crate::numbers::Numbers;
use crate::random::Random;
use std::array;
use table::board::Board;
use table::row::{Figures, Row};

// How a table is drawn.
#[derive(Clone, Copy)]
struct Shape {
    rows: usize,
    // Periods are below this.
    longest: u32,
    // Costs, sensitivities and stresses are below this.
    heaviest: u32,
}

// A board with at most so many cores.
pub fn draw_board(random: &mut Random, most: u8) -> Board
    ensures few { result.cores ≤ max most 1 }
{
    let cores = 1 + random.below(u32::from(most)) as u8;
    let resources = random.below(5) as u8;
    Board::new(cores, resources).unwrap_or(Board {
        cores: 1,
        resources: 0,
    })
}

fn draw_shape(random: &mut Random) -> Shape
    ensures few { result.rows ≤ 70 }
    ensures some { 1 ≤ result.rows }
{
    let rows = if random.one_in(40) {
        60 + random.below(11)
    } else {
        1 + random.below(12)
    };
    Shape {
        rows: rows as usize,
        longest: 2 + random.below(200),
        heaviest: 2 + random.below(8),
    }
}

fn draw_four(random: &mut Random, bound: u32) -> [u32; 4] {
    array::from_fn(|_| random.below(bound))
}

fn draw_figures(random: &mut Random, shape: &Shape) -> Figures {
    let period = random.up_to(shape.longest);
    Figures {
        cost: random.up_to(shape.heaviest),
        period,
        deadline: random.up_to(period),
        sensitivity: draw_four(random, shape.heaviest),
        stress: draw_four(random, shape.heaviest),
    }
}

// Figures that break one limit.
fn broken(random: &mut Random, figures: Figures) -> Figures {
    match random.below(6) {
        0 => Figures { cost: 0, ..figures },
        1 => Figures {
            cost: 10_000_001,
            ..figures
        },
        2 => Figures {
            deadline: figures.period.saturating_add(1),
            ..figures
        },
        3 => Figures {
            period: 0,
            deadline: 0,
            ..figures
        },
        4 => Figures {
            sensitivity: [10_000_001, 0, 0, 0],
            ..figures
        },
        _ => Figures {
            stress: [0, 0, 0, 10_000_001],
            ..figures
        },
    }
}

fn draw_row(random: &mut Random, shape: &Shape) -> Row {
    let drawn = draw_figures(random, shape);
    let figures = if random.one_in(12) {
        broken(random, drawn)
    } else {
        drawn
    };
    Row {
        used: !random.one_in(10),
        core: random.below(5) as u8,
        rank: 1 + random.below(12) as u8,
        figures,
    }
}

// A random board, and a list of rows of which the first `count` are the table's.
#[derive(Clone, Copy)]
pub struct Table {
    pub board: Board,
    // All are drawn, whatever the count: a list that is lent to a sheet holds them all.
    pub rows: [Row; 70],
    pub count: usize,
    ghost few: { count ≤ 70 },
}

impl Table {
    // The rows of the table.
    pub fn rows(&self) -> &[Row]
        ensures answer { result.now ≡ take self.now.count self.now.rows }
    {
        &self.rows[..self.count]
    }
}

pub fn draw_table(random: &mut Random) -> Table
    ensures cores { result.board.cores ≤ 4 }
    ensures some { 1 ≤ result.count }
{
    let board = draw_board(random, 4);
    let shape = draw_shape(random);
    Table {
        board,
        rows: array::from_fn(|_| draw_row(random, &shape)),
        count: shape.rows,
    }
}

pub(crate) fn draw_set(random: &mut Random) -> Numbers {
    Numbers {
        flags: array::from_fn(|_| random.one_in(2)),
    }
}
