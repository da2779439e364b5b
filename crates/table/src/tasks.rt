// The tasks of a row list, by number: made once, so that no calculation asks for the limits again.
ghost use Rattle.table.specs.Rows.{capacity, is_task, plain, plain_row, row_at};
ghost use Rattle.table.specs.Tasks.{listed, row_of, slot};
ghost use Rattle.std.specs.Prelude.{◌≡◌};

use crate::row::Row;
use crate::task::Task;

// How many numbers there are: rows from this place on are no tasks.
pub const NUMBERS: usize = 64;

#[derive(Clone, Copy, PartialEq, Eq, Debug)]
pub struct Tasks {
    pub slots: [Option<Task>; 64],
}

// How many numbers a row list has: its length, or 64 if that is less.
pub fn capacity_of(rows: &[Row]) -> usize
    ensures answer { result ≡ capacity rows.now }
{
    rows.len().min(NUMBERS)
}

// Whether a number has a task.
pub fn is_task(rows: &[Row], number: usize) -> bool
    ensures answer { result ≡ is_task rows.now number }
{
    match rows.get(number) {
        Some(row) => (number < NUMBERS) & row.holds_task(),
        None => false,
    }
}

fn task_at(rows: &[Row], number: usize) -> Option<Task>
    ensures { row_of result ≡ plain_row (row_at rows.now number) }
{
    Task::of(rows.get(number)?)
}

impl Tasks {
    // In place: `array::from_fn` would move all of them once more, and every question begins here.
    pub fn of(rows: &[Row]) -> Tasks
        ensures answer { listed result ≡ plain rows.now }
    {
        let mut slots = [None; NUMBERS];
        for (number, slot) in slots.iter_mut().enumerate() {
            *slot = task_at(rows, number);
        }
        Tasks { slots }
    }

    // The task of a number, if it has one.
    pub fn at(&self, number: usize) -> Option<Task>
        ensures answer { result ≡ slot self.now number }
    {
        self.slots.get(number).copied().flatten()
    }
}
