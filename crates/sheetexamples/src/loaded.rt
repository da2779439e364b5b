// Loading, judging, ordering and settling on a sheet, and whole runs.
use crate::edited::{TWO_CORES, entry, number_of};
use bounds::composable::Composable;
use bounds::deadline::Deadline;
use examples::files::{changed, joined, mended, worked_file};
use ordering::order::NoOrder;
use promise::call::{Answer, Call};
use promise::run::run;
use sheet::entry::Entry;
use sheet::open::OpenSheet;
use sheet::refused::{Layer, NotOrdered, NotPassing};
use std::panic::Expect;
use table::refusal::Refusal;
use table::row::{Figures, Row};
use table::testing::Test;

// What a refused load tells: cause, block, record, and how many were entered.
fn stop_of(file: &[u8]) -> (u8, u8, u8, usize) {
    let mut rows = [Row::EMPTY; 64];
    let mut sheet = OpenSheet::open(TWO_CORES, &mut rows);
    match sheet.load(file) {
        Ok(entered) => (0, 0, 0, entered),
        Err(stop) => (stop.cause.number(), stop.block, stop.record, stop.entered),
    }
}

#[test]
fn loading(rt: HostRuntime) {
    let file = worked_file();
    assert_eq!(rt; stop_of(&file), (0, 0, 0, 3));
    assert_eq!(rt; stop_of(&file[0..511]), (2, 0, 0, 0));
    assert_eq!(rt; stop_of(&changed(file, 40, 9)), (3, 0, 0, 0));
    assert_eq!(rt; stop_of(&[0; 512]), (5, 0, 0, 0));
    let second = mended(changed(file, 1, 1));
    assert_eq!(rt; stop_of(&second), (4, 0, 0, 0));
    assert_eq!(rt;
        stop_of(&joined(file, second)),
        (8, 1, 0, 3),
        "the first block stays"
    );
    assert_eq!(rt; stop_of(&joined(file, file)), (4, 1, 0, 3));
}

// A byte of the worked file, its new value, and what is told once the check is made good again.
#[test]
fn loading_records(rt: HostRuntime) {
    let told = [
        (104, 64, (7, 0, 2, 2)),
        (104, 2, (8, 0, 2, 2)),
        (57, 2, (10, 0, 1, 1)),
        (58, 1, (11, 0, 1, 1)),
        // The fourth byte.
        (59, 1, (6, 0, 1, 1)),
        // C of 0.
        (15, 0, (6, 0, 0, 0)),
    ];
    for (at, byte, stop) in told {
        let file = mended(changed(worked_file(), at, byte));
        assert_eq!(rt; stop_of(&file), stop);
    }
}

// The layer goes by the cause, and each record that is entered loosens.
#[test]
fn stopping(rt: HostRuntime) {
    let mut rows = [Row::EMPTY; 64];
    let mut sheet = OpenSheet::open(TWO_CORES, &mut rows);
    assert!(rt; sheet.judge(0, &Composable).is_ok());
    assert!(rt; sheet.judge(1, &Composable).is_ok());
    let file = mended(changed(worked_file(), 59, 1));
    let stop = sheet.load(&file).err().expect(&rt, "loaded");
    assert_eq!(rt; stop.layer, Layer::Row);
    assert!(rt;
        !sheet.marks()[0].is_standing(),
        "one record was entered on core 0"
    );
    assert!(rt; sheet.marks()[1].is_standing());
    assert!(rt; rows[1].used);
    assert!(rt; !rows[2].used);
}

fn half(number: usize, rank: u8, period: u32) -> Entry {
    Entry {
        figures: Figures {
            cost: 6,
            period,
            deadline: period,
            sensitivity: [0; 4],
            stress: [0; 4],
        },
        ..entry(number, 0, rank)
    }
}

// Two tasks of C 6 pass in 12, and no order of them does in 11: then nothing is written.
#[test]
fn ordering(rt: HostRuntime) {
    let mut rows = [Row::EMPTY; 2];
    let mut sheet = OpenSheet::open(TWO_CORES, &mut rows);
    assert_eq!(rt; number_of(sheet.enter(&half(0, 1, 12))), 0);
    assert_eq!(rt; number_of(sheet.enter(&half(1, 2, 12))), 0);
    assert_eq!(rt; sheet.order(0, &Deadline).ok(), Some(2));
    assert_eq!(rt; sheet.bound(0, &Deadline).ok(), Some(12));
    assert_eq!(rt; number_of(sheet.amend(0, &half(0, 1, 11).figures)), 0);
    assert_eq!(rt; number_of(sheet.amend(1, &half(1, 2, 11).figures)), 0);
    assert!(rt;
        matches!(
            sheet.order(0, &Deadline),
            Err(NotOrdered::NoOrder(NoOrder {
                trials: 2,
                unplaced: 2
            }))
        )
    );
    assert!(rt; matches!(sheet.judge(0, &Deadline), Err(NotPassing::NoBound(0))));
    assert!(rt; matches!(sheet.order(2, &Deadline), Err(NotOrdered::CoreLacking)));
    assert_eq!(rt; rows[0].rank, 2, "as the first ordering left it");
    assert_eq!(rt; rows[1].rank, 1);
}

#[test]
fn settling(rt: HostRuntime) {
    let mut rows = [Row::EMPTY; 4];
    let mut sheet = OpenSheet::open(TWO_CORES, &mut rows);
    assert!(rt; sheet.load(&worked_file()).is_ok());
    let mut short = [9; 3];
    let why = sheet.settle(&mut short).err().expect(&rt, "settled");
    assert_eq!(rt; why.refusal().number(), 14);
    assert_eq!(rt; short, [9; 3]);
    let mut times = [9; 5];
    assert_eq!(rt; sheet.settle(&mut times).ok(), Some(2));
    assert_eq!(rt; times, [0, 3, 6, 5, 9]);
}

// The number of an answer's refusal, or 0; none where there is no answer.
fn number_in(answer: &Option<Answer>) -> Option<u8> {
    let told = (*answer)?;
    Some(told.refusal().map_or(0, Refusal::number))
}

// A run of every kind of call; and one with too few places for answers, which does nothing.
#[test]
fn running(rt: HostRuntime) {
    let file = worked_file();
    let calls = [
        Call::Load(&file),
        Call::Enter(entry(4, 1, 1)),
        Call::Order(0),
        Call::Judge(1),
        Call::Amend(3, entry(3, 1, 1).figures),
        Call::Withdraw(3),
        Call::Order(1),
    ];
    let mut rows = [Row::EMPTY; 64];
    let mut answers = [None; 7];
    let told = run(TWO_CORES, &mut rows, &Deadline, &calls, &mut answers);
    let marks = told.expect(&rt, "no room");
    assert!(rt;
        !marks[0].is_standing(),
        "loosened by the amendment on core 1"
    );
    assert!(rt; marks[1].is_standing());
    for (answer, number) in answers.iter().zip([0, 11, 0, 0, 0, 0, 0]) {
        assert_eq!(rt; number_in(answer), Some(number));
    }
    let short = &mut answers[0..6];
    let told = run(TWO_CORES, &mut rows, &Deadline, &calls, short);
    assert_eq!(rt; told.err().map(Refusal::number), Some(14));
    assert!(rt; rows[1].used, "not even opened");
}
