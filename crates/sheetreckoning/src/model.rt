// The sheet a second time, kept in another way: a slot for each number, with a task or none, and
// for each core the test by which it stands, or none.
ghost use Rattle.std.specs.Prelude.{◌≤◌};

use naive::recurrence::Kind;
use table::board::Board;
use table::row::{Figures, Row};

// Entering, withdrawing and amending.
mod editing;
// Loading a file, byte by byte.
pub(crate) mod loading;
// Judging, ordering, bounds and settling.
mod passing;

// A task in its slot.
#[derive(Clone, Copy)]
pub(crate) struct Filed {
    pub(crate) core: u8,
    pub(crate) rank: u8,
    pub(crate) figures: Figures,
}

// What is asked to be filed, and under which number; a record of a file has a fourth byte.
#[derive(Clone, Copy)]
pub(crate) struct Draft {
    pub(crate) number: usize,
    pub(crate) fourth: u8,
    pub(crate) filed: Filed,
}

#[derive(Clone, Copy)]
pub(crate) struct Model {
    pub(crate) board: Board,
    pub(crate) capacity: usize,
    slots: [Option<Filed>; 64],
    stands: [Option<Kind>; 8],
    ghost few: { capacity ≤ 64 },
}

impl From<Filed> for Row {
    fn from(filed: Filed) -> Row {
        Row {
            used: true,
            core: filed.core,
            rank: filed.rank,
            figures: filed.figures,
        }
    }
}

// The row of a slot without a task.
const BLANK: Row = Row {
    used: false,
    core: 0,
    rank: 1,
    figures: Figures {
        cost: 1,
        period: 1,
        deadline: 1,
        sensitivity: [0; 4],
        stress: [0; 4],
    },
};

impl Model {
    // A sheet over a list of so many rows.
    pub(crate) fn open(board: Board, length: usize) -> Model {
        Model {
            board,
            capacity: length.min(64),
            slots: [None; 64],
            stands: [None; 8],
        }
    }

    pub(crate) fn slot(&self, number: usize) -> Option<Filed> {
        *self.slots.get(number)?
    }

    // The test by which a core stands.
    pub(crate) fn stand(&self, core: usize) -> Option<Kind> {
        *self.stands.get(core)?
    }

    // How many tasks there are.
    pub(crate) fn count(&self) -> usize {
        self.slots.iter().filter(|slot| slot.is_some()).count()
    }

    // The number of the task that has a rank on a core.
    pub(crate) fn holder(&self, core: u8, rank: u8) -> Option<usize> {
        self.slots.iter().position(|slot| match slot {
            Some(filed) => filed.core == core && filed.rank == rank,
            None => false,
        })
    }

    // The row that a number should have.
    pub(crate) fn row(&self, number: usize) -> Row {
        self.slot(number).map_or(BLANK, Row::from)
    }
}
