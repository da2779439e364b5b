// A set of task numbers, for the second reckoning alone.
ghost use Rattle.naive.specs.Sets.{members};
ghost use Rattle.std.specs.Prelude.{◌≡◌, ◌<◌, ◌≤◌, IfSome, slice_set};
ghost use Rattle.table.specs.Sets.{count_below, members as handed_members, with, without};

use table::set::TaskSet;

#[derive(Clone, Copy)]
pub struct Numbers {
    pub(crate) flags: [bool; 64],
}

impl Numbers {
    pub const NONE: Numbers = Numbers { flags: [false; 64] };

    pub fn has(&self, number: usize) -> bool
        ensures answer { result ≡ members self.now number }
    {
        number < 64 && self.flags[number]
    }

    // The flag of a number as told, if it is one that a task can have.
    fn mark(&mut self, number: usize, there: bool)
        ensures { self.new.flags ≡ slice_set self.old.flags number there }
    {
        if number < 64 {
            self.flags[number] = there;
        }
    }

    // One number more, if it is one that a task can have.
    pub fn put(&mut self, number: usize)
        ensures answer { members self.new ≡ with (members self.old) number }
    {
        self.mark(number, true);
    }

    // One number less.
    pub fn remove(&mut self, number: usize)
        ensures answer { members self.new ≡ without (members self.old) number }
    {
        self.mark(number, false);
    }

    // How many numbers it has.
    pub fn count(&self) -> usize
        ensures answer { result ≡ count_below (members self.now) 64 }
        ensures few { result ≤ 64 }
    {
        self.flags.iter().filter(|flag| **flag).count()
    }

    // The k-th of its numbers, counted from 0 by rising number.
    pub(crate) fn nth(&self, k: usize) -> Option<usize>
        ensures { IfSome result (λ number. number < 64) }
    {
        (0..64).filter(|number| self.has(*number)).nth(k)
    }

    // The same numbers, to be handed to the analyser.
    pub fn handed(&self) -> TaskSet
        ensures answer { handed_members result ≡ members self.now }
    {
        TaskSet { flags: self.flags }
    }
}
