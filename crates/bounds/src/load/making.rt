// Loads from tasks.
ghost use Rattle.std.specs.Prelude.{◌≡◌, ◌<◌, Some};
ghost use Rattle.bounds.specs.Gathering.{form, higher_form, rival_form};
ghost use Rattle.table.specs.Tasks.{row_of};

use crate::load::Load;
use least::Window;
use table::task::Task;

impl Load {
    // How a task weighs on a lower one of its own core.
    pub(crate) fn higher(task: &Task) -> Load
        requires { task.now.core < 8 }
        ensures { form result ≡ higher_form (row_of (Some task.now)) }
    {
        Load {
            core: task.core,
            period: task.figures.period,
            ahead: Window { length: 0 },
            cost: task.figures.cost,
            weight: task.figures.sensitivity,
        }
    }

    // How a task weighs on the tasks of other cores.
    pub(crate) fn rival(task: &Task, ahead: Window) -> Load
        requires { task.now.core < 8 }
        ensures { form result ≡ rival_form ahead.length (row_of (Some task.now)) }
    {
        Load {
            core: task.core,
            period: task.figures.period,
            ahead,
            cost: 0,
            weight: task.figures.stress,
        }
    }
}

// What an unused place of a list holds.
impl Default for Load {
    fn default() -> Load {
        Load {
            core: 0,
            period: 1,
            ahead: Window { length: 0 },
            cost: 0,
            weight: [0; 4],
        }
    }
}
