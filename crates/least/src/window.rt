// A window whose length is looked at: none is longer than the longest.
ghost use Rattle.std.specs.Prelude.{◌≡◌, ◌<◌, ◌≤◌, MatchOption};

// The longest window that is ever looked at, in microseconds.
pub const LONGEST: u32 = 10_000_000;

#[derive(Clone, Copy, PartialEq, Eq, Debug)]
pub struct Window {
    pub length: u32,
    ghost short: { length ≤ 10000000 },
}

impl Window {
    // Of a length of which nothing is known.
    pub fn new(length: u32) -> Option<Window>
        ensures answer { MatchOption result (10000000 < length) (λ window. window.length ≡ length) }
    {
        if length <= LONGEST {
            Some(Window { length })
        } else {
            None
        }
    }
}
