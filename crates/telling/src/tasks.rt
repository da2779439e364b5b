// The tasks of a table: one after the other, and then all response times together.
ghost use Rattle.telling.specs.Listing.{slot_text, slots_text, tasks_text};
ghost use Rattle.std.specs.Prelude.{Some};

use crate::settled::SettledTold;
use crate::task::TaskTold;
use std::fmt;
use table::board::Board;
use table::row::Row;
use table::task::Task;
use table::tasks::{NUMBERS, Tasks};

#[derive(Clone, Copy)]
pub struct TasksTold<'a> {
    pub board: &'a Board,
    pub rows: &'a [Row],
}

// A number's task, with an empty line after it; nothing where it has none.
#[derive(Clone, Copy)]
struct SlotTold<'a> {
    board: &'a Board,
    rows: &'a [Row],
    number: usize,
    slot: &'a Option<Task>,
}

impl fmt::Display for SlotTold<'_> {
    ghost output = { λ told. Some (slot_text told.board.now told.rows.now told.number told.slot.now) };

    #[tactic(auto, unfolding(crate::specs::Listing::slot_text))]
    fn fmt<W: fmt::Write>(&self, f: &mut fmt::Formatter<W>) -> fmt::Result {
        let SlotTold {
            board,
            rows,
            number,
            slot,
        } = *self;
        match slot {
            Some(task) => {
                let told = TaskTold {
                    board,
                    rows,
                    number,
                    task,
                };
                write!(f, "{told}\n\n")
            }
            None => Ok(()),
        }
    }
}

// The tasks by rising number.
#[derive(Clone, Copy)]
struct SlotsTold<'a> {
    board: &'a Board,
    rows: &'a [Row],
    tasks: &'a Tasks,
}

impl fmt::Display for SlotsTold<'_> {
    ghost output = { λ told. Some (slots_text told.board.now told.rows.now told.tasks.now) };

    fn fmt<W: fmt::Write>(&self, f: &mut fmt::Formatter<W>) -> fmt::Result {
        let SlotsTold { board, rows, tasks } = *self;
        for number in 0..NUMBERS {
            let told = SlotTold {
                board,
                rows,
                number,
                slot: &tasks.at(number),
            };
            write!(f, "{told}")?;
        }
        Ok(())
    }
}

impl fmt::Display for TasksTold<'_> {
    ghost output = { λ told. Some (tasks_text told.board.now told.rows.now) };

    fn fmt<W: fmt::Write>(&self, f: &mut fmt::Formatter<W>) -> fmt::Result {
        let TasksTold { board, rows } = *self;
        let tasks = Tasks::of(rows);
        let slots = SlotsTold {
            board,
            rows,
            tasks: &tasks,
        };
        let settled = SettledTold {
            board,
            rows,
            tasks: &tasks,
        };
        write!(f, "{slots}{settled}")
    }
}
