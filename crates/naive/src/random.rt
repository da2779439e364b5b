// Random numbers from a fixed seed: a counter, and a mixing of its bits.
ghost use Rattle.naive.specs.Draws.{drawn, mixed, moved};
ghost use Rattle.std.specs.Prelude.{◌≡◌, ◌+◌, ◌-◌, ◌≤◌, ◌==◌, max};

#[derive(Clone, Copy)]
pub struct Random {
    state: u64,
}

impl Random {
    pub fn new(seed: u64) -> Random
        ensures answer { result.state ≡ seed }
    {
        Random { state: seed }
    }

    fn next(&mut self) -> u64
        ensures answer { result ≡ mixed self.new.state }
        ensures moves { self.new.state ≡ moved self.old.state }
    {
        self.state = self.state.wrapping_add(0x9e37_79b9_7f4a_7c15);
        let a = (self.state ^ (self.state >> 30)).wrapping_mul(0xbf58_476d_1ce4_e5b9);
        let b = (a ^ (a >> 27)).wrapping_mul(0x94d0_49bb_1331_11eb);
        b ^ (b >> 31)
    }

    // A number below a bound, or 0 where the bound is 0.
    pub fn below(&mut self, bound: u32) -> u32
        ensures answer { result ≡ drawn self.old.state bound }
        ensures moves { self.new.state ≡ moved self.old.state }
        ensures range { result ≤ bound - 1 }
    {
        let drawn = self.next();
        if bound == 0 {
            return 0;
        }
        (drawn % u64::from(bound)) as u32
    }

    // A number from 1 to a limit.
    pub fn up_to(&mut self, limit: u32) -> u32
        ensures answer { result ≡ drawn self.old.state limit + 1 }
        ensures moves { self.new.state ≡ moved self.old.state }
        ensures low { 1 ≤ result }
        ensures high { result ≤ max limit 1 }
    {
        self.below(limit).saturating_add(1)
    }

    // One time in so many.
    pub fn one_in(&mut self, n: u32) -> bool
        ensures answer { result ≡ (drawn self.old.state n == 0) }
        ensures moves { self.new.state ≡ moved self.old.state }
    {
        self.below(n) == 0
    }
}
