// The worked example, and the figures that were worked out by hand.
#![tactic(auto)]

ghost use Rattle.figures.specs.Figures.{all_hold, figures, holds};
ghost use Rattle.figures.specs.Tables.{task_row, two_cores, worked_rows};
ghost use Rattle.std.specs.Prelude.{◌≡◌, true};

use table::board::Board;
use table::row::{Figures, Row};

// Two cores that share one resource.
pub fn worked_board() -> Board
    ensures answer { result ≡ two_cores }
{
    Board {
        cores: 2,
        resources: 1,
    }
}

// A row by its core, rank, C, T, D and, for the one resource, X and Y.
pub fn task_row(core: u8, rank: u8, cost: u32, period: u32, deadline: u32, x: u32, y: u32) -> Row
    ensures answer { result ≡ task_row core rank cost period deadline x y }
{
    Row {
        used: true,
        core,
        rank,
        figures: Figures {
            cost,
            period,
            deadline,
            sensitivity: [x, 0, 0, 0],
            stress: [y, 0, 0, 0],
        },
    }
}

// Its rows: tasks 1 and 2 on core 0, and task 3 on core 1. The definitions compute every figure
// that was worked out by hand for it and for the other small tables.
pub fn worked_rows() -> [Row; 4]
    ensures answer { result ≡ worked_rows }
    ensures figures { all_hold holds figures ≡ true }
{
    [
        Row::EMPTY,
        task_row(0, 1, 2, 10, 10, 1, 1),
        task_row(0, 2, 3, 20, 12, 2, 0),
        task_row(1, 1, 4, 15, 15, 1, 1),
    ]
}
