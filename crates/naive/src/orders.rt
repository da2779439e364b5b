// Every order of a core's tasks, tried one after the other, the earliest first.
use crate::numbers::Numbers;
use crate::recurrence;
use crate::recurrence::{Kind, Question};
use arrayvec::ArrayVec;
use table::board::Board;
use table::row::Row;

// Cores with more tasks are left out.
pub(crate) const MOST: usize = 5;

// The numbers of an order, from the lowest place up.
pub(crate) type Order = ArrayVec<usize, MOST>;

fn factorial(n: usize) -> usize {
    (1..=n).fold(1, |all: usize, k| all.saturating_mul(k))
}

// The index-th order of all, in which an earlier one has a smaller number at the first difference.
fn nth_order(tasks: &Numbers, index: usize) -> Order {
    let mut left = *tasks;
    let mut rest = index;
    let mut order = Order::new();
    for others in (0..tasks.count().min(MOST)).rev() {
        let block = factorial(others).max(1);
        if let Some(number) = left.nth(rest / block) {
            left.remove(number);
            let _ = order.try_push(number);
        }
        rest %= block;
    }
    order
}

// Whether each task of an order has a bound with exactly those above it.
fn passes(kind: Kind, board: &Board, rows: &[Row], order: &[usize]) -> bool {
    let mut question = Question {
        kind,
        board: *board,
        rows,
        number: 0,
        above: Numbers::NONE,
        ahead: recurrence::deadlines(rows),
    };
    for number in order.iter().rev() {
        question.number = *number;
        if question.bound().is_none() {
            return false;
        }
        question.above.put(*number);
    }
    true
}

// The earliest order that passes, by trying them all.
pub(crate) fn first_order(
    kind: Kind,
    board: &Board,
    rows: &[Row],
    tasks: &Numbers,
) -> Option<Order> {
    (0..factorial(tasks.count()))
        .map(|index| nth_order(tasks, index))
        .find(|order| passes(kind, board, rows, order))
}
