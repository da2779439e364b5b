// Orders, judging, and all response times together, on small tables.
ghost use Rattle.std.specs.Prelude.{◌≡◌, Ok};

use bounds::deadline::Deadline;
use bounds::response::{Unsettled, respond, settle};
use figures::{worked_board, worked_rows};
use ordering::judging::find_unbound;
use ordering::order::Order;
use ordering::search::find_order;
use ordering::writing::order_core;
use shortlist::ShortList;
use std::alloc::AllocError;
use std::panic::Expect;
use table::board::Board;
use table::row::{Figures, Row};

const ONE_CORE: Board = Board {
    cores: 1,
    resources: 0,
};

fn two(period: u32) -> [Row; 2] {
    let row = Row {
        used: true,
        core: 0,
        rank: 1,
        figures: Figures {
            cost: 6,
            period,
            deadline: period,
            sensitivity: [0; 4],
            stress: [0; 4],
        },
    };
    [row, Row { rank: 2, ..row }]
}

// Task 1 is placed lowest, then 2, and nothing but their ranks changes.
#[test]
fn worked_order(rt: HostRuntime) {
    let mut rows = worked_rows();
    let told = order_core(&worked_board(), &mut rows, 0, &Deadline);
    let found = told.ok().expect(&rt, "refused");
    assert_eq!(rt; found.trials, 2);
    assert_eq!(rt; found.order.numbers.as_slice(), [1, 2].as_slice());
    assert_eq!(rt; rows[1].rank, 2);
    assert_eq!(rt; rows[2].rank, 1);
    assert_eq!(rt; rows[3].rank, 1);
    assert_eq!(rt; rows[1].figures.cost, 2);
}

#[test]
fn just_fits(rt: HostRuntime) {
    let told = find_order(&ONE_CORE, &two(12), 0, &Deadline);
    assert_eq!(rt; told.ok().map(|found| found.trials), Some(2));
}

const NO_TASK: Order = Order {
    numbers: ShortList {
        places: [0; 64],
        len: 0,
    },
};

// A clone of an order is that order.
fn cloned(order: &Order) -> Result<Order, AllocError>
    ensures { result ≡ Ok order.now }
{
    order.clone()
}

// Whoever is handed an order may use it by value more than once.
#[test]
fn copied(rt: HostRuntime) {
    let told = find_order(&ONE_CORE, &two(12), 0, &Deadline);
    let found = told.ok().expect(&rt, "refused");
    let (order, whole) = (found.order, found);
    let clone = cloned(&order).ok().expect(&rt, "not cloned");
    for again in [order, order, whole.order, found.order, clone] {
        assert_eq!(rt; again.numbers.as_slice(), [0, 1].as_slice());
    }
    for none in [NO_TASK, NO_TASK] {
        assert_eq!(rt; none.numbers.len(), 0);
    }
}

// Where no order passes, no rank is written.
#[test]
fn impossible(rt: HostRuntime) {
    let mut rows = two(11);
    let told = order_core(&ONE_CORE, &mut rows, 0, &Deadline);
    let none = told.err().expect(&rt, "ordered");
    assert_eq!(rt; none.trials, 2);
    assert_eq!(rt; none.unplaced, 2);
    assert_eq!(rt; rows[0].rank, 1);
    assert_eq!(rt; rows[1].rank, 2);
}

// A core without tasks has the empty order, which passes.
#[test]
fn no_tasks(rt: HostRuntime) {
    assert_eq!(rt; find_unbound(&ONE_CORE, &[], 0, &Deadline), None);
    let told = find_order(&ONE_CORE, &[], 0, &Deadline);
    assert_eq!(rt; told.ok().map(|found| found.order.numbers.len()), Some(0));
}

// Of two tasks without a bound the one of higher rank is named.
#[test]
fn judged(rt: HostRuntime) {
    assert_eq!(rt; find_unbound(&ONE_CORE, &two(12), 0, &Deadline), None);
    assert_eq!(rt; find_unbound(&ONE_CORE, &two(11), 0, &Deadline), Some(1));
    let [a, b] = two(5);
    assert_eq!(rt; find_unbound(&ONE_CORE, &[b, a], 0, &Deadline), Some(1));
}

fn number_of(why: Unsettled) -> u8 {
    why.refusal().number()
}

// What is behind the rows' places is left, and a list that is too short is left whole.
#[test]
fn settled(rt: HostRuntime) {
    let rows = worked_rows();
    let mut times = [9; 5];
    let told = settle(&worked_board(), &rows, &mut times);
    assert_eq!(rt; told.map_err(number_of), Ok(2));
    assert_eq!(rt; times, [0, 3, 6, 5, 9]);
    let mut short = [9; 3];
    let told = settle(&worked_board(), &rows, &mut short);
    assert_eq!(rt; told.map_err(number_of), Err(14));
    assert_eq!(rt; short, [9, 9, 9]);
}

#[test]
fn unsettled(rt: HostRuntime) {
    let rows = two(11);
    let none = respond(&ONE_CORE, &rows).err().expect(&rt, "settled");
    assert_eq!(rt; none.task, 1);
    assert_eq!(rt; none.round, 1);
    let mut times = [9; 2];
    let told = settle(&ONE_CORE, &rows, &mut times);
    assert_eq!(rt; told.map_err(number_of), Err(13));
    assert_eq!(rt; times, [9, 9]);
}
