// Sums over loads: one division for each load and window.
ghost use Rattle.std.specs.Prelude.{◌≡◌, ℕ, ◌*◌, ◌^◌, ◌<◌, ◌≤◌, min, slice_index, slice_index_or};
ghost use Rattle.bounds.specs.Loads.{Added, AtMost, Total, every, no_sums, of_core, seen};
ghost use Rattle.bounds.specs.Sums.{sum_to};
ghost use Rattle.shortlist.specs.Items.{items};

use crate::load::{Load, Loads, Sums};
use least::Window;
use std::array;

impl Load {
    // Its releases in a window, rounded up.
    fn releases(&self, window: Window) -> u32
        ensures value { result ≡ seen window.length self.now }
        ensures few { result ≤ 20000000 }
    {
        (window.length + self.ahead.length + (self.period - 1)) / self.period
    }
}

impl Sums {
    pub(crate) const NONE: Sums = Sums {
        cost: 0,
        shared: [0; 4],
    };

    // With n releases of a load more.
    fn add(self, n: u32, load: &Load) -> Sums
        requires low { AtMost (2 ^ 63) self }
        requires few { n ≤ 20000000 }
        ensures { Added self n load.now result }
    {
        let n = n as u64;
        Sums {
            cost: self.cost + n * load.cost as u64,
            // Written out: tried by from_fn, and the proof did not close, since each sum has to fit at any call.
            shared: [
                self.shared[0] + n * load.weight[0] as u64,
                self.shared[1] + n * load.weight[1] as u64,
                self.shared[2] + n * load.weight[2] as u64,
                self.shared[3] + n * load.weight[3] as u64,
            ],
        }
    }
}

// From a start, what all loads add in a window.
pub(crate) fn sums(loads: &Loads, start: Sums, window: Window) -> Sums
    requires { AtMost 10000000 start }
    ensures total { Total every window.length start (items loads.now) result }
    ensures small { AtMost (2 ^ 54) result }
{
    let mut sums = start;
    for load in loads.as_slice() {
        sums = sums.add(load.releases(window), load);
    }
    sums
}

// What the loads of each core add in a window.
pub(crate) fn sums_by_core(loads: &Loads, window: Window) -> [Sums; 8]
    ensures { (y : ℕ) → y < 8 → Total (of_core y) window.length no_sums (items loads.now) (slice_index_or result y no_sums) }
{
    let mut sums = [Sums::NONE; 8];
    for load in loads.as_slice() {
        let y = load.core as usize;
        sums[y] = sums[y].add(load.releases(window), load);
    }
    sums
}

// The lesser of each two.
pub(crate) fn lesser(theirs: &[u64; 4], own: &[u64; 4]) -> [u64; 4]
    ensures { (k : ℕ) → k < 4 → slice_index result k ≡ min (slice_index theirs.now k) (slice_index own.now k) }
{
    array::from_fn(|k| theirs[k].min(own[k]))
}

// The sum over the resources of the board.
pub(crate) fn total(xs: &[u64; 4], resources: usize) -> u64
    requires few { resources ≤ 4 }
    requires small { (r : ℕ) → r < 4 → slice_index xs.now r ≤ 2 ^ 54 }
    ensures value { result ≡ sum_to resources (λ k. slice_index xs.now k) }
    ensures small { result ≤ resources * 2 ^ 54 }
{
    xs[..resources].iter().copied().sum()
}
