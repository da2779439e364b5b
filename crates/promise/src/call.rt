// Calls as values, and their answers.
ghost use Rattle.promise.specs.Calls.{refusal_in};
ghost use Rattle.std.specs.Prelude.{◌≡◌};

use sheet::entry::Entry;
use sheet::refused::{NotOrdered, NotPassing, Stopped};
use table::refusal::Refusal;
use table::row::Figures;

#[derive(Clone, Copy)]
pub enum Call<'a> {
    Enter(Entry),
    // The bytes of a file.
    Load(&'a [u8]),
    // A number.
    Withdraw(usize),
    // A number, and the figures to replace.
    Amend(usize, Figures),
    // A core.
    Judge(u8),
    // A core.
    Order(u8),
}

// What a call answers, by kind.
#[derive(Clone, Copy, PartialEq, Eq, Debug)]
pub enum Answer {
    Entered(Result<(), Refusal>),
    Loaded(Result<usize, Stopped>),
    Withdrawn(Result<(), Refusal>),
    Amended(Result<(), Refusal>),
    Judged(Result<(), NotPassing>),
    Ordered(Result<u32, NotOrdered>),
}

impl Answer {
    // Why the call was refused, if it was. No failure of its own, so an Option.
    pub fn refusal(&self) -> Option<Refusal>
        ensures answer { result ≡ refusal_in self.now }
    {
        match self {
            Answer::Entered(told) => told.err(),
            Answer::Loaded(Ok(_)) => None,
            Answer::Loaded(Err(stop)) => Some(stop.cause),
            Answer::Withdrawn(told) => told.err(),
            Answer::Amended(told) => told.err(),
            Answer::Judged(Ok(_)) => None,
            Answer::Judged(Err(why)) => Some(why.refusal()),
            Answer::Ordered(Ok(_)) => None,
            Answer::Ordered(Err(why)) => Some(why.refusal()),
        }
    }
}
