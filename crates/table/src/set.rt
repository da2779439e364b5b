// A set of task numbers.
ghost use Rattle.table.specs.Sets.{count_below, members, with, without};
ghost use Rattle.std.specs.Prelude.{◌≡◌, slice_set};

use crate::tasks::NUMBERS;

#[derive(Clone, Copy, PartialEq, Eq, Debug)]
pub struct TaskSet {
    pub flags: [bool; 64],
}

impl TaskSet {
    pub const EMPTY: TaskSet = TaskSet { flags: [false; 64] };

    pub fn has(&self, number: usize) -> bool
        ensures answer { result ≡ members self.now number }
    {
        self.flags.get(number).copied().unwrap_or(false)
    }

    // With the flag of a number as told; numbers that no task can have are left out.
    fn marked(self, number: usize, there: bool) -> TaskSet
        ensures { result.flags ≡ slice_set self.flags number there }
    {
        let mut flags = self.flags;
        if number < NUMBERS {
            flags[number] = there;
        }
        TaskSet { flags }
    }

    // The set with one number more, if it is one that a task can have.
    pub fn with(self, number: usize) -> TaskSet
        ensures answer { members result ≡ with (members self) number }
    {
        self.marked(number, true)
    }

    // The set with one number less.
    pub fn without(self, number: usize) -> TaskSet
        ensures answer { members result ≡ without (members self) number }
    {
        self.marked(number, false)
    }

    // How many numbers it has. By a loop: `filter` and `count` take four times as long.
    pub fn size(&self) -> usize
        ensures answer { result ≡ count_below (members self.now) 64 }
    {
        let mut n: usize = 0;
        for k in 0..NUMBERS {
            if self.flags[k] {
                n += 1;
            }
        }
        n
    }
}
