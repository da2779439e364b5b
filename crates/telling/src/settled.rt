// All response times together under the present ranks.
ghost use Rattle.bounds.specs.Rounds.{settled};
ghost use Rattle.telling.specs.Times.{has_task, settled_text, time_text, times_text};
ghost use Rattle.std.specs.Prelude.{Some};

use bounds::response::respond;
use std::fmt;
use table::board::Board;
use table::row::Row;
use table::tasks::{NUMBERS, Tasks};

#[derive(Clone, Copy)]
pub(crate) struct SettledTold<'a> {
    pub(crate) board: &'a Board,
    pub(crate) rows: &'a [Row],
    pub(crate) tasks: &'a Tasks,
}

// The response time of a number; nothing where it has no task.
#[derive(Clone, Copy)]
struct TimeTold {
    there: bool,
    number: usize,
    time: u32,
}

impl fmt::Display for TimeTold {
    ghost output = { λ told. Some (time_text told.there told.number told.time) };

    #[tactic(auto, unfolding(crate::specs::Times::time_text))]
    fn fmt<W: fmt::Write>(&self, f: &mut fmt::Formatter<W>) -> fmt::Result {
        let TimeTold { number, time, .. } = *self;
        if self.there {
            write!(f, "\n  task {number} ends within {time}")
        } else {
            Ok(())
        }
    }
}

// The response time of each task.
#[derive(Clone, Copy)]
struct TimesTold<'a> {
    tasks: &'a Tasks,
    bounds: &'a [u32; 64],
}

impl fmt::Display for TimesTold<'_> {
    ghost output = { λ told. Some (times_text (has_task told.tasks.now) told.bounds.now) };

    fn fmt<W: fmt::Write>(&self, f: &mut fmt::Formatter<W>) -> fmt::Result {
        for number in 0..NUMBERS {
            let told = TimeTold {
                there: self.tasks.at(number).is_some(),
                number,
                time: self.bounds[number],
            };
            write!(f, "{told}")?;
        }
        Ok(())
    }
}

impl fmt::Display for SettledTold<'_> {
    ghost output = { λ told. Some (settled_text (has_task told.tasks.now) (settled told.board.now told.rows.now)) };

    #[tactic(auto, unfolding(crate::specs::Times::settled_text))]
    fn fmt<W: fmt::Write>(&self, f: &mut fmt::Formatter<W>) -> fmt::Result {
        match respond(self.board, self.rows) {
            Ok(settled) => {
                let round = settled.round;
                let times = TimesTold {
                    tasks: self.tasks,
                    bounds: &settled.bounds,
                };
                write!(f, "The response test settles in round {round}{times}")
            }
            Err(unbounded) => {
                let number = unbounded.task;
                let round = unbounded.round;
                write!(
                    f,
                    "The response test finds no bound for task {number} in round {round}"
                )
            }
        }
    }
}
