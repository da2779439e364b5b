// How many questions there were, how many had an answer, and how many were answered in two ways.
ghost use Rattle.naive.specs.Tallies.{one_more, shown};
ghost use Rattle.std.specs.Prelude.{◌≡◌, not, true, Some};

use std::fmt;

#[derive(Clone, Copy, Default)]
pub struct Tally {
    pub questions: u64,
    pub answered: u64,
    pub differing: u64,
}

impl Tally {
    // One question more. Each count stays at the largest number once it has reached it.
    pub fn note(&mut self, answered: bool, same: bool)
        ensures questions { self.new.questions ≡ one_more self.old.questions true }
        ensures answered { self.new.answered ≡ one_more self.old.answered answered }
        ensures differing { self.new.differing ≡ one_more self.old.differing (not same) }
    {
        self.questions = self.questions.saturating_add(1);
        self.answered = self.answered.saturating_add(u64::from(answered));
        self.differing = self.differing.saturating_add(u64::from(!same));
    }
}

impl fmt::Display for Tally {
    ghost output = { λ tally. Some (shown tally) };

    fn fmt<W: fmt::Write>(&self, f: &mut fmt::Formatter<W>) -> fmt::Result {
        let Tally {
            questions,
            answered,
            differing,
        } = *self;
        write!(f, "{questions} found {answered} differing {differing}")
    }
}
