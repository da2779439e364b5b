// How a task weighs on another, in numbers that no sum over 64 tasks can overflow.
ghost use Rattle.std.specs.Prelude.{◌≡◌, ◌<◌, ◌≤◌, true};
ghost use Rattle.table.specs.Limits.{all_small};

use least::Window;
use shortlist::ShortList;

mod making;
mod summing;

pub(crate) use summing::{lesser, sums, sums_by_core, total};

// One release each period, counted from `ahead` before the window; a release adds its cost to the
// execution, and its weight to the contention on each resource.
#[derive(Clone, Copy)]
pub(crate) struct Load {
    pub(crate) core: u8,
    pub(crate) period: u32,
    pub(crate) ahead: Window,
    pub(crate) cost: u32,
    pub(crate) weight: [u32; 4],
    ghost core_low: { core < 8 },
    ghost period_low: { 1 ≤ period },
    ghost period_high: { period ≤ 10000000 },
    ghost cost_high: { cost ≤ 10000000 },
    ghost weight_high: { all_small weight ≡ true },
}

// The loads of as many tasks as there can be.
pub(crate) type Loads = ShortList<Load, 64>;

// Sums in one window: of execution, and of contention on each resource.
#[derive(Clone, Copy)]
pub(crate) struct Sums {
    pub(crate) cost: u64,
    pub(crate) shared: [u64; 4],
}
