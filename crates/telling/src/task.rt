// A task: its figures, and what both tests say of it under the present ranks.
ghost use Rattle.telling.specs.Tasks.{bound_text, figures_text, resources_text, task_text};
ghost use Rattle.std.specs.Prelude.{Some};

use bounds::composable::Composable;
use bounds::deadline::Deadline;
use std::fmt;
use table::board::Board;
use table::ranks::rank_at;
use table::row::{Figures, Row};
use table::set::TaskSet;
use table::task::Task;
use table::testing::Test;

// A test's answer for a task with a deadline.
#[derive(Clone, Copy)]
struct BoundTold {
    test: &'static str,
    bound: Option<u32>,
    deadline: u32,
}

impl fmt::Display for BoundTold {
    ghost output = { λ told. Some (bound_text told.test.now told.deadline told.bound) };

    #[tactic(auto, unfolding(crate::specs::Tasks::bound_text))]
    fn fmt<W: fmt::Write>(&self, f: &mut fmt::Formatter<W>) -> fmt::Result {
        let test = self.test;
        let deadline = self.deadline;
        match self.bound {
            Some(time) => write!(
                f,
                "  {test} test: ends within {time}, so it meets its deadline of {deadline}"
            ),
            None => write!(
                f,
                "  {test} test: no bound within {deadline}, so it may miss its deadline"
            ),
        }
    }
}

// The sensitivity and the stress, for so many resources, which the board has.
#[derive(Clone, Copy)]
struct ResourcesTold {
    resources: u8,
    figures: Figures,
}

impl fmt::Display for ResourcesTold {
    ghost output = { λ told. Some (resources_text told.resources told.figures) };

    fn fmt<W: fmt::Write>(&self, f: &mut fmt::Formatter<W>) -> fmt::Result {
        let Figures {
            sensitivity,
            stress,
            ..
        } = self.figures;
        // By places, as the definition counts them.
        for r in 0..usize::from(self.resources).min(4) {
            let x = sensitivity[r];
            let y = stress[r];
            write!(
                f,
                "\n  on resource {r} it suffers up to {x} from each other core, and inflicts up to {y}"
            )?;
        }
        Ok(())
    }
}

// The figures; of the resources only so many, which the board has.
#[derive(Clone, Copy)]
struct FiguresTold {
    resources: u8,
    figures: Figures,
}

impl fmt::Display for FiguresTold {
    ghost output = { λ told. Some (figures_text told.resources told.figures) };

    #[tactic(auto, unfolding(crate::specs::Tasks::figures_text))]
    fn fmt<W: fmt::Write>(&self, f: &mut fmt::Formatter<W>) -> fmt::Result {
        let FiguresTold { resources, figures } = *self;
        let Figures {
            cost,
            period,
            deadline,
            ..
        } = figures;
        let resources = ResourcesTold { resources, figures };
        write!(
            f,
            "  executes for {cost} alone, is released at most once every {period}, has to end within {deadline}{resources}"
        )
    }
}

#[derive(Clone, Copy)]
pub(crate) struct TaskTold<'a> {
    pub(crate) board: &'a Board,
    pub(crate) rows: &'a [Row],
    pub(crate) number: usize,
    pub(crate) task: &'a Task,
}

impl fmt::Display for TaskTold<'_> {
    ghost output = { λ told. Some (task_text told.board.now told.rows.now told.number told.task.now.core told.task.now.figures) };

    #[tactic(auto, unfolding(crate::specs::Tasks::task_text))]
    fn fmt<W: fmt::Write>(&self, f: &mut fmt::Formatter<W>) -> fmt::Result {
        let TaskTold {
            board,
            rows,
            number,
            task,
        } = *self;
        let core = task.core;
        let rank = rank_at(rows, number);
        let figures = FiguresTold {
            resources: board.resources,
            figures: task.figures,
        };
        let above = TaskSet::higher_ranked(rows, number);
        let wide = BoundTold {
            test: "deadline",
            bound: Deadline.bound(board, rows, number, &above),
            deadline: task.figures.deadline,
        };
        let own = BoundTold {
            test: "composable",
            bound: Composable.bound(board, rows, number, &above),
            deadline: task.figures.deadline,
        };
        write!(
            f,
            "Task {number} on core {core}, rank {rank}\n{figures}\n{wide}\n{own}"
        )
    }
}
