// The board, and how to read the figures.
ghost use Rattle.telling.specs.Boards.{board_text};
ghost use Rattle.std.specs.Prelude.{Some};

use crate::counted::Counted;
use std::fmt;
use table::board::Board;

#[derive(Clone, Copy)]
pub struct BoardTold<'a>(pub &'a Board);

impl fmt::Display for BoardTold<'_> {
    ghost output = { λ told. Some (board_text told.0.now) };

    fn fmt<W: fmt::Write>(&self, f: &mut fmt::Formatter<W>) -> fmt::Result {
        let cores = Counted {
            count: u32::from(self.0.cores),
            word: "core",
        };
        let resources = Counted {
            count: u32::from(self.0.resources),
            word: "shared resource",
        };
        write!(
            f,
            "The board has {cores} and {resources}.\nTimes are whole microseconds. Rank 1 is the highest of its core."
        )
    }
}
