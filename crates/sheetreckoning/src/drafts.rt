// Random calls on a sheet: mostly such as are accepted, and now and then one with any fault.
use crate::model::{Draft, Filed, Model};
use naive::random::Random;
use naive::recurrence::Kind;
use std::array;
use table::row::Figures;

// How the calls on one sheet are drawn.
#[derive(Clone, Copy)]
pub(crate) struct Habit {
    // Periods are longer than the first, by no more than the second.
    pub(crate) shortest: u32,
    pub(crate) spread: u32,
    // Costs are no heavier, and sensitivities and stresses are lighter.
    pub(crate) heaviest: u32,
    // With more tasks, rows are withdrawn rather than entered.
    pub(crate) crowd: usize,
}

pub(crate) fn draw_habit(random: &mut Random) -> Habit {
    let crowd = if random.one_in(10) {
        random.below(65)
    } else {
        2 + random.below(14)
    };
    Habit {
        shortest: random.below(20),
        spread: 2 + random.below(22),
        heaviest: 1 + random.below(4),
        crowd: crowd as usize,
    }
}

pub(crate) fn draw_kind(random: &mut Random) -> Kind {
    if random.one_in(2) {
        Kind::Deadline
    } else {
        Kind::Composable
    }
}

// By resource; 0 for one that the board lacks.
fn draw_four(random: &mut Random, resources: u8, bound: u32) -> [u32; 4] {
    array::from_fn(|r| {
        let drawn = random.below(bound);
        if r < usize::from(resources) { drawn } else { 0 }
    })
}

// Figures with one that is as large as it may be, or breaks a limit on some boards or all.
fn odd(random: &mut Random, usual: Figures) -> Figures {
    let large = 10_000_000 + random.below(2);
    let r = random.below(4) as usize;
    let mut figures = usual;
    match random.below(10) {
        0 => figures.cost = 0,
        1 => figures.cost = large,
        2 => figures.period = 0,
        3 => figures.period = large,
        4 => figures.deadline = 0,
        5 => figures.deadline = usual.period.saturating_add(1),
        6 => figures.sensitivity[r] = large,
        7 => figures.stress[r] = large,
        8 => figures.sensitivity[r] = 1,
        _ => figures.stress[r] = 1,
    }
    figures
}

pub(crate) fn draw_figures(random: &mut Random, habit: &Habit, resources: u8) -> Figures {
    let period = habit.shortest.saturating_add(random.up_to(habit.spread));
    let deadline = random.up_to(period);
    let figures = Figures {
        cost: random.up_to(habit.heaviest),
        period,
        deadline: if random.one_in(2) { period } else { deadline },
        sensitivity: draw_four(random, resources, habit.heaviest),
        stress: draw_four(random, resources, habit.heaviest),
    };
    if random.one_in(12) {
        odd(random, figures)
    } else {
        figures
    }
}

// The next number with or without a task, from a random one round; or a random one.
pub(crate) fn draw_number(random: &mut Random, model: &Model, taken: bool) -> usize {
    if random.one_in(60) {
        return usize::MAX;
    }
    if random.one_in(12) {
        return random.below(72) as usize;
    }
    let start = random.below(64) as usize;
    (0..64)
        .map(|k| (start + k) % 64)
        .find(|number| *number < model.capacity && model.slot(*number).is_some() == taken)
        .unwrap_or(start)
}

pub(crate) fn draw_core(random: &mut Random, model: &Model) -> u8 {
    if random.one_in(20) {
        return random.below(256) as u8;
    }
    let core = random.below(8) as u8;
    core % model.board.cores
}

// The next free rank of the core from a small one on; or a random one.
fn draw_rank(random: &mut Random, model: &Model, core: u8) -> u8 {
    if random.one_in(20) {
        return random.below(256) as u8;
    }
    let start = 1 + random.below(12) as u8;
    (0..64)
        .map(|k| (start + k) % 65)
        .find(|rank| *rank > 0 && model.holder(core, *rank).is_none())
        .unwrap_or(start)
}

// A task to be entered.
pub(crate) fn draw_draft(random: &mut Random, model: &Model, habit: &Habit) -> Draft {
    let taken = random.one_in(20);
    let number = draw_number(random, model, taken);
    let core = draw_core(random, model);
    let rank = if random.one_in(20) {
        1 + random.below(6) as u8
    } else {
        draw_rank(random, model, core)
    };
    Draft {
        number,
        fourth: 0,
        filed: Filed {
            core,
            rank,
            figures: draw_figures(random, habit, model.board.resources),
        },
    }
}
