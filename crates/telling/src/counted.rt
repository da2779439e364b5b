// A counted word: "1 core", "2 cores".
ghost use Rattle.telling.specs.Counts.{counted_text, plural};
ghost use Rattle.std.specs.Prelude.{◌≡◌, Some};

use std::fmt;

#[derive(Clone, Copy)]
pub struct Counted {
    pub count: u32,
    // The word for one of them.
    pub word: &'static str,
}

// What follows the word.
fn ending_for(count: u32) -> &'static str
    ensures { result.now ≡ plural count }
{
    if count == 1 { "" } else { "s" }
}

impl fmt::Display for Counted {
    ghost output = { λ told. Some (counted_text told.count told.word.now) };

    #[tactic(auto, unfolding(crate::specs::Counts::counted_text))]
    fn fmt<W: fmt::Write>(&self, f: &mut fmt::Formatter<W>) -> fmt::Result {
        let ending = ending_for(self.count);
        write!(f, "{} {}{ending}", self.count, self.word)
    }
}
