// The tasks of a core, and those of them that the present ranks put above one.
ghost use Rattle.table.specs.Ranks.{higher_ranked};
ghost use Rattle.table.specs.Rows.{on_core, row_at};
ghost use Rattle.table.specs.Sets.{members};
ghost use Rattle.std.specs.Prelude.{◌≡◌};

use crate::row::Row;
use crate::set::TaskSet;
use crate::tasks::NUMBERS;
use std::array;

// The rank in the row of a number; 0, which is no rank, past the end of the list.
pub fn rank_at(rows: &[Row], number: usize) -> u8
    ensures answer { result ≡ (row_at rows.now number).rank }
{
    rows.get(number).map_or(0, |row| row.rank)
}

// Whether `other` is a task of the core of `number` with a higher rank.
fn is_higher(rows: &[Row], number: usize, other: usize) -> bool
    ensures { result ≡ higher_ranked rows.now number other }
{
    match (rows.get(number), rows.get(other)) {
        (Some(low), Some(high)) => {
            (other < NUMBERS) & high.holds_task() & (high.core == low.core) & (high.rank < low.rank)
        }
        _ => false,
    }
}

// Whether a number has a task on the core.
fn is_on_core(rows: &[Row], core: u8, number: usize) -> bool
    ensures { result ≡ on_core rows.now core number }
{
    match rows.get(number) {
        Some(row) => (number < NUMBERS) & row.holds_task() & (row.core == core),
        None => false,
    }
}

impl TaskSet {
    // The tasks of a core.
    pub fn of_core(rows: &[Row], core: u8) -> TaskSet
        ensures answer { members result ≡ on_core rows.now core }
    {
        TaskSet {
            flags: array::from_fn(|number| is_on_core(rows, core, number)),
        }
    }

    // The tasks that the present ranks put above a number.
    pub fn higher_ranked(rows: &[Row], number: usize) -> TaskSet
        ensures answer { members result ≡ higher_ranked rows.now number }
    {
        TaskSet {
            flags: array::from_fn(|other| is_higher(rows, number, other)),
        }
    }
}
