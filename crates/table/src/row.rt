// Rows of the task table, as plain numbers: nothing is known of them before the one check.
ghost use Rattle.table.specs.Limits.{all_had, all_small, in_limits, suits};
ghost use Rattle.table.specs.Rows.{holds_task};
ghost use Rattle.std.specs.Prelude.{◌≡◌};

use crate::board::Board;

// The largest figure: ten seconds, in microseconds.
pub const MOST: u32 = 10_000_000;

// What an amendment replaces. All times are whole microseconds.
#[derive(Clone, Copy, PartialEq, Eq, Debug)]
pub struct Figures {
    // C: execution time, running alone.
    pub cost: u32,
    // T: least time between two releases.
    pub period: u32,
    // D: time from release to the latest completion allowed.
    pub deadline: u32,
    // X, by resource: the most its own execution grows by contention from one other core.
    pub sensitivity: [u32; 4],
    // Y, by resource: the most it lengthens a task on another core.
    pub stress: [u32; 4],
}

// A row's number is its place in the list. An unused row is empty.
#[derive(Clone, Copy, PartialEq, Eq, Debug)]
pub struct Row {
    // A flag and no Option: the rows lie in lent memory, and contracts tell of unused ones as they lie there.
    pub used: bool,
    pub core: u8,
    // 1 is the highest; no two tasks of a core share a rank.
    pub rank: u8,
    pub figures: Figures,
}

impl Row {
    pub const EMPTY: Row = Row {
        used: false,
        core: 0,
        rank: 1,
        figures: Figures {
            cost: 1,
            period: 1,
            deadline: 1,
            sensitivity: [0; 4],
            stress: [0; 4],
        },
    };

    // Whether it counts as a task's row wherever it stands.
    pub fn holds_task(&self) -> bool
        ensures answer { result ≡ holds_task self.now }
    {
        self.used & self.figures.in_limits()
    }
}

// Taken apart: every look at a row asks this, and by an iterator it takes half as long again.
fn are_small(xs: &[u32; 4]) -> bool
    ensures { result ≡ all_small xs.now }
{
    let [a, b, c, d] = *xs;
    (a <= MOST) & (b <= MOST) & (c <= MOST) & (d <= MOST)
}

// Whether it is 0 for each resource that a board with so many lacks.
fn are_had(resources: u8, xs: &[u32; 4]) -> bool
    ensures { result ≡ all_had resources xs.now }
{
    xs.iter().skip(resources as usize).all(|x| *x == 0)
}

impl Figures {
    // Every limit, on a board: those that name none, and no sensitivity to or stress on a resource
    // that the board lacks.
    pub fn suits(&self, board: &Board) -> bool
        ensures answer { result ≡ suits board.now self.now }
    {
        self.in_limits()
            & are_had(board.resources, &self.sensitivity)
            & are_had(board.resources, &self.stress)
    }

    // The limits that name no board.
    pub fn in_limits(&self) -> bool
        ensures answer { result ≡ in_limits self.now }
    {
        (1 <= self.period)
            & (self.period <= MOST)
            & (1 <= self.deadline)
            & (self.deadline <= self.period)
            & (1 <= self.cost)
            & (self.cost <= MOST)
            & are_small(&self.sensitivity)
            & are_small(&self.stress)
    }
}
