// The one text that gathers the loads of the tasks that are picked, and who picks.
ghost use Rattle.std.specs.Prelude.{ℕ, ◌<◌, Bool, not, ◌&&◌, ◌==◌};
ghost use Rattle.bounds.specs.Gathering.{Form, Gathers, Picked, higher_form, rival_form};
ghost use Rattle.bounds.specs.Lengths.{length_of};
ghost use Rattle.shortlist.specs.Items.{items};
ghost use Rattle.table.specs.Rows.{on_board, on_core, row_at};
ghost use Rattle.table.specs.Sets.{members};
ghost use Rattle.table.specs.Tasks.{listed};

use crate::lengths::Lengths;
use crate::load::{Load, Loads};
use crate::prepared::CheckedTable;
use table::set::TaskSet;
use table::tasks::{NUMBERS, Tasks};

// A trait and no closure: whom it picks, and how, stands in its ghost members, which a closure would have
// to hand over beside it, with a `requires` for each.
pub(crate) trait Pick {
    // Which numbers are picked.
    ghost picks: { Self → ℕ → Bool };

    // How the task of a number that is picked weighs.
    ghost forms: { Self → ℕ → Form };

    fn pick(&self, number: usize) -> Option<Load>
        requires { number < 64 }
        ensures { Picked (picks self.now number) (forms self.now number) result };
}

// By `push`, which cannot fail: collecting could, and a test may not.
pub(crate) fn gather<P: Pick>(picker: &P) -> Loads
    ensures { Gathers (P.picks picker.now) (P.forms picker.now) 64 (items result) }
{
    let mut loads = Loads::new();
    for number in 0..NUMBERS {
        if let Some(load) = picker.pick(number) {
            loads.push(load);
        }
    }
    loads
}

// The tasks of a set that count as higher than a number: others of its core.
#[derive(Clone, Copy)]
pub(crate) struct Higher<'a> {
    pub(crate) tasks: &'a Tasks,
    pub(crate) number: usize,
    pub(crate) core: u8,
    pub(crate) above: &'a TaskSet,
    ghost core_low: { core < 8 },
}

impl Pick for Higher<'_> {
    ghost picks = { λ x j. members x.above.now j && not (j == x.number) && on_core (listed x.tasks.now) x.core j };

    ghost forms = { λ x j. higher_form (row_at (listed x.tasks.now) j) };

    fn pick(&self, number: usize) -> Option<Load> {
        if !self.above.flags[number] | (number == self.number) {
            return None;
        }
        let task = self.tasks.at(number)?;
        if task.core != self.core {
            return None;
        }
        Some(Load::higher(&task))
    }
}

// All tasks on cores of the board, as they weigh on other cores.
#[derive(Clone, Copy)]
pub(crate) struct Rivals<'a> {
    pub(crate) table: &'a CheckedTable,
    // How long before the window the releases of each are counted from.
    pub(crate) ahead: &'a Lengths,
}

impl Pick for Rivals<'_> {
    ghost picks = { λ x j. on_board x.table.now.board (listed x.table.now.tasks) j };

    ghost forms = { λ x j. rival_form (length_of x.ahead.now.of j) (row_at (listed x.table.now.tasks) j) };

    fn pick(&self, number: usize) -> Option<Load> {
        let task = self.table.task(number)?;
        Some(Load::rival(&task, self.ahead.at(number)))
    }
}
