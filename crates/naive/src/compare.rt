// The analyser's answers beside the naive ones, over random tables.
ghost use Rattle.naive.specs.Tallies.{all_shown, one_more};
ghost use Rattle.std.specs.Prelude.{◌≡◌, true, Some};

use crate::numbers::Numbers;
use crate::orders::Order;
use crate::random::Random;
use crate::recurrence::{Kind, Question};
use crate::rounds::{Settled, Unsettled};
use crate::tables::Table;
use crate::tally::Tally;
use crate::{orders, recurrence, rounds, tables, written};
use bounds::composable::Composable;
use bounds::deadline::Deadline;
use bounds::response::respond;
use ordering::order::{Found, NoOrder};
use ordering::search::find_order;
use std::fmt;
use table::set::TaskSet;
use table::testing::Test;

// What was asked of the tables.
#[derive(Clone, Copy, Default)]
pub struct Compared {
    pub bounds: Tally,
    pub orders: Tally,
    pub settlings: Tally,
    pub files: Tally,
}

// One question under both tests: the analyser is handed a set of its own kind.
fn both_tests(tally: &mut Tally, table: &Table, number: usize, set: &TaskSet, above: &Numbers) {
    let question = Question {
        kind: Kind::Deadline,
        board: table.board,
        rows: table.rows(),
        number,
        above: *above,
        ahead: recurrence::deadlines(table.rows()),
    };
    let wide = Deadline.bound(&table.board, table.rows(), number, set);
    tally.note(wide.is_some(), wide == question.bound());
    let own_question = Question {
        kind: Kind::Composable,
        ..question
    };
    let own = Composable.bound(&table.board, table.rows(), number, set);
    tally.note(own.is_some(), own == own_question.bound());
}

// Every number of a table, under its ranks and under a random set.
fn all_bounds(tally: &mut Tally, random: &mut Random, table: &Table) {
    for number in 0..table.count {
        let ranked = TaskSet::higher_ranked(table.rows(), number);
        let above = recurrence::above(table.rows(), number);
        both_tests(tally, table, number, &ranked, &above);
        let any = tables::draw_set(random);
        both_tests(tally, table, number, &any.handed(), &any);
    }
}

// The same numbers, or both none.
fn is_same_order(found: &Result<Found, NoOrder>, expected: &Option<Order>) -> bool {
    match (found, expected) {
        (Ok(found), Some(order)) => { found.order.numbers.as_slice() == order.as_slice() }
        (Err(_), None) => true,
        _ => false,
    }
}

// One core under both tests, if it is small enough to try all orders.
fn one_order(tally: &mut Tally, table: &Table, core: u8) {
    let tasks = recurrence::tasks_of(table.rows(), core);
    if tasks.count() > orders::MOST {
        return;
    }
    let wide = find_order(&table.board, table.rows(), core, &Deadline);
    let wide_too = orders::first_order(Kind::Deadline, &table.board, table.rows(), &tasks);
    tally.note(wide.is_ok(), is_same_order(&wide, &wide_too));
    let own = find_order(&table.board, table.rows(), core, &Composable);
    let own_too = orders::first_order(Kind::Composable, &table.board, table.rows(), &tasks);
    tally.note(own.is_ok(), is_same_order(&own, &own_too));
}

fn settling(tally: &mut Tally, table: &Table)
    ensures { tally.new.questions ≡ one_more tally.old.questions true }
{
    let expected = rounds::settle(&table.board, table.rows());
    match respond(&table.board, table.rows()) {
        Ok(settled) => {
            let bounds = settled.bounds;
            let round = settled.round;
            tally.note(true, expected == Ok(Settled { bounds, round }));
        }
        Err(none) => {
            let task = none.task;
            let round = none.round;
            tally.note(false, expected == Err(Unsettled::Unbounded { task, round }));
        }
    }
}

// Every core that a table may have.
fn all_orders(tally: &mut Tally, table: &Table) {
    for core in 0..4 {
        one_order(tally, table, core);
    }
}

// Every question of a random table.
fn one_table(compared: &mut Compared, random: &mut Random)
    ensures settlings { compared.new.settlings.questions ≡ one_more compared.old.settlings.questions true }
    ensures files { compared.new.files.questions ≡ one_more compared.old.files.questions true }
{
    let table = tables::draw_table(random);
    all_bounds(&mut compared.bounds, random, &table);
    all_orders(&mut compared.orders, &table);
    settling(&mut compared.settlings, &table);
    written::file(&mut compared.files, random, &table);
}

// So many random tables from a seed: every question of each, answered both ways.
pub fn compare_tables(seed: u64, tables: u32) -> Compared
    ensures settlings { result.settlings.questions ≡ tables }
    ensures files { result.files.questions ≡ tables }
{
    let mut random = Random::new(seed);
    let mut compared = Compared::default();
    for _ in 0..tables {
        one_table(&mut compared, &mut random);
    }
    compared
}

impl fmt::Display for Compared {
    ghost output = { λ compared. Some (all_shown compared) };

    fn fmt<W: fmt::Write>(&self, f: &mut fmt::Formatter<W>) -> fmt::Result {
        let Compared {
            bounds,
            orders,
            settlings,
            files,
        } = *self;
        write!(
            f,
            "bounds {bounds}\norders {orders}\nsettlings {settlings}\nfiles {files}\n"
        )
    }
}
