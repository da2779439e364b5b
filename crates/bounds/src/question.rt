// One question, and the right side of its recurrence.
ghost use Rattle.std.specs.Prelude.{◌^◌, ◌≤◌};
ghost use Rattle.bounds.specs.Loads.{AtMost};
ghost use Rattle.bounds.specs.Questions.{SumsOf, lesser_side, own_cost, sensitivity_side};
ghost use Rattle.shortlist.specs.Items.{items};

use crate::load::{Loads, Sums, lesser, sums, sums_by_core, total};
use least::{Rule, Window};
use table::board::Board;
use table::task::Task;

// A task and the loads of those that count as higher.
#[derive(Clone, Copy)]
pub(crate) struct Own {
    pub(crate) task: Task,
    pub(crate) higher: Loads,
}

impl Own {
    // Execution, and for each resource what can be suffered, in a window.
    fn sums(&self, window: Window) -> Sums
        ensures value { SumsOf self.now window.length result }
        ensures small { AtMost (2 ^ 54) result }
    {
        let start = Sums {
            cost: self.task.figures.cost as u64,
            shared: self.task.figures.sensitivity.map(|x| x as u64),
        };
        sums(&self.higher, start, window)
    }

    // The execution that every window has: one release of each.
    fn start(&self) -> u32
        ensures { result ≤ own_cost self.now 1 }
    {
        let once = self.sums(Window { length: 1 }).cost;
        once.min(u32::MAX as u64) as u32
    }
}

// The composable test's: what can be suffered counts once for each other core.
#[derive(Clone, Copy)]
pub(crate) struct SensitivityRule<'a> {
    pub(crate) board: &'a Board,
    pub(crate) own: &'a Own,
}

impl Rule for SensitivityRule<'_> {
    ghost value = { λ q. sensitivity_side q.board.now q.own.now };

    fn start(&self) -> u32 {
        self.own.start()
    }

    fn at(&self, window: Window) -> u64 {
        let own = self.own.sums(window);
        let others = self.board.cores as u64 - 1;
        own.cost + others * total(&own.shared, self.board.resources as usize)
    }
}

// The deadline test's: for each other core and resource the lesser of what it can inflict and what
// can be suffered.
#[derive(Clone, Copy)]
pub(crate) struct LesserRule<'a> {
    pub(crate) board: &'a Board,
    pub(crate) own: &'a Own,
    pub(crate) rivals: &'a Loads,
}

impl Rule for LesserRule<'_> {
    ghost value = { λ q. lesser_side q.board.now q.own.now (items q.rivals.now) };

    fn start(&self) -> u32 {
        self.own.start()
    }

    fn at(&self, window: Window) -> u64 {
        let own = self.own.sums(window);
        let theirs = sums_by_core(self.rivals, window);
        let core = self.own.task.core as usize;
        let cores = self.board.cores as usize;
        let resources = self.board.resources as usize;
        let mut sum = own.cost;
        for (y, theirs) in theirs[..cores].iter().enumerate() {
            if y != core {
                let shares = lesser(&theirs.shared, &own.shared);
                sum += total(&shares, resources);
            }
        }
        sum
    }
}
