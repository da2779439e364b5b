// The least solution of a recurrence `rule(t) = t`: one text for every rule that never falls.
#![tactic(auto)]

ghost use Rattle.std.specs.Prelude.{◌≡◌, ℕ, min};
ghost use Rattle.least.specs.Least.{AnswersLeast, NoSolutionBelow, Rising, solution};

mod window;

pub use window::{LONGEST, Window};

// The right side of a recurrence, as a function of the window's length.
pub trait Rule {
    ghost value: { Self → ℕ → ℕ };

    // Where to begin: no solution lies below.
    fn start(&self) -> u32
        ensures { NoSolutionBelow (value self.now) result };

    fn at(&self, window: Window) -> u64
        ensures { result ≡ value self.now window.length };
}

// The least t from 1 to the limit at which the rule gives t, or none. The climb goes from a window
// to what the rule makes of it: whatever lies between cannot be a solution of a rule that never
// falls. A rule that does fall ends it, so it ends on every input.
pub fn climb<R: Rule>(rule: &R, limit: u32) -> Option<u32>
    ensures answer { Rising (R.value rule.now) → result ≡ solution (R.value rule.now) (min limit 10000000) }
    ensures least { Rising (R.value rule.now) → AnswersLeast (R.value rule.now) (min limit 10000000) result }
{
    let limit = limit.min(LONGEST);
    let mut t = rule.start().max(1);
    while t <= limit {
        let next = rule.at(Window { length: t });
        if next == t as u64 {
            return Some(t);
        }
        if next < t as u64 || next > limit as u64 {
            return None;
        }
        t = next as u32;
    }
    None
}
