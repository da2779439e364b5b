// An order, and what a search for one answers.
ghost use Rattle.std.specs.Prelude.{◌≤◌, length};
ghost use Rattle.shortlist.specs.Items.{items};

use shortlist::ShortList;

// The numbers of the tasks, from the lowest place up.
#[derive(Clone, Copy, Debug)]
pub struct Order {
    pub numbers: ShortList<usize, 64>,
    ghost few: { length (items numbers) ≤ 64 },
}

// An order that was found, and how many tasks were tried over all its places.
#[derive(Clone, Copy, Debug)]
pub struct Found {
    pub order: Order,
    pub trials: u32,
}

// No task can take a place: so many were tried over all places, and so many are still unplaced.
#[derive(Clone, Copy, PartialEq, Eq, Debug)]
pub struct NoOrder {
    pub trials: u32,
    pub unplaced: usize,
}
