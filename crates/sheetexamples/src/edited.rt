// The sheet under edit: what is entered, withdrawn and amended, each refusal in its order, and the
// marks.
use bounds::composable::Composable;
use bounds::deadline::Deadline;
use sheet::entry::Entry;
use sheet::open::OpenSheet;
use table::board::Board;
use table::refusal::Refusal;
use table::row::{Figures, Row};
use table::testing::Test;

pub(crate) const TWO_CORES: Board = Board {
    cores: 2,
    resources: 1,
};

const PLAIN: Figures = Figures {
    cost: 2,
    period: 10,
    deadline: 10,
    sensitivity: [0; 4],
    stress: [0; 4],
};

const LONGEST: u32 = 10_000_000;

pub(crate) fn entry(number: usize, core: u8, rank: u8) -> Entry {
    Entry {
        number,
        core,
        rank,
        figures: PLAIN,
    }
}

// The number of a refusal, and 0 for an accepted call.
pub(crate) fn number_of(told: Result<(), Refusal>) -> u8 {
    told.err().map_or(0, Refusal::number)
}

fn enter(sheet: &mut OpenSheet<'_>, number: usize, core: u8, rank: u8) -> u8 {
    number_of(sheet.enter(&entry(number, core, rank)))
}

fn enter_figures(sheet: &mut OpenSheet<'_>, figures: Figures) -> u8 {
    number_of(sheet.enter(&Entry {
        figures,
        ..entry(1, 0, 2)
    }))
}

// Of several faults the first is told: number, occupied, core, rank, figures.
#[test]
fn entering(rt: HostRuntime) {
    let mut rows = [Row::EMPTY; 3];
    let mut sheet = OpenSheet::open(TWO_CORES, &mut rows);
    let told = [
        (0, 0, 1, 0),
        // Past the list.
        (3, 2, 65, 7),
        (0, 2, 65, 8),
        (1, 2, 65, 10),
        (1, 0, 0, 11),
        (1, 0, 65, 11),
        // Taken, and taken on another core.
        (1, 0, 1, 11),
        (1, 1, 1, 0),
        (2, 0, 64, 0),
    ];
    for (number, core, rank, refusal) in told {
        assert_eq!(rt; enter(&mut sheet, number, core, rank), refusal);
    }
}

#[test]
fn limits(rt: HostRuntime) {
    let mut rows = [Row::EMPTY; 2];
    let mut sheet = OpenSheet::open(TWO_CORES, &mut rows);
    let lacking = Figures {
        stress: [0, 1, 0, 0],
        ..PLAIN
    };
    assert_eq!(rt;
        enter_figures(&mut sheet, lacking),
        6,
        "a resource that the board lacks"
    );
    let longer = Figures {
        period: LONGEST + 1,
        ..PLAIN
    };
    assert_eq!(rt; enter_figures(&mut sheet, longer), 6);
    let longest = Figures {
        period: LONGEST,
        sensitivity: [LONGEST, 0, 0, 0],
        ..PLAIN
    };
    assert_eq!(rt; enter_figures(&mut sheet, longest), 0);
    assert_eq!(rt; number_of(sheet.amend(1, &longer)), 6);
    assert_eq!(rt; number_of(sheet.amend(0, &longer)), 9);
    assert_eq!(rt; number_of(sheet.amend(2, &longer)), 7);
}

// A task that is longer than its deadline is entered, and has no bound.
#[test]
fn without_a_bound(rt: HostRuntime) {
    let mut rows = [Row::EMPTY; 1];
    let mut sheet = OpenSheet::open(TWO_CORES, &mut rows);
    let long = Entry {
        figures: Figures { cost: 11, ..PLAIN },
        ..entry(0, 0, 1)
    };
    assert_eq!(rt; number_of(sheet.enter(&long)), 0);
    let told = sheet.bound(0, &Deadline);
    assert_eq!(rt; told.map_err(Refusal::number), Err(13));
    assert_eq!(rt; number_of(sheet.amend(0, &PLAIN)), 0);
    assert_eq!(rt; sheet.bound(0, &Deadline).ok(), Some(2));
}

// A number may be used again; rows from place 64 on are never touched.
#[test]
fn withdrawing(rt: HostRuntime) {
    let full = Row {
        used: true,
        core: 1,
        rank: 9,
        figures: PLAIN,
    };
    let mut rows = [full; 66];
    let mut sheet = OpenSheet::open(TWO_CORES, &mut rows);
    assert_eq!(rt; enter(&mut sheet, 64, 0, 1), 7);
    assert_eq!(rt; number_of(sheet.withdraw(64)), 7);
    assert_eq!(rt; number_of(sheet.withdraw(63)), 9, "opening empties");
    assert_eq!(rt; enter(&mut sheet, 63, 0, 1), 0);
    assert_eq!(rt; number_of(sheet.withdraw(63)), 0);
    assert_eq!(rt; number_of(sheet.withdraw(63)), 9);
    assert_eq!(rt; enter(&mut sheet, 63, 1, 5), 0);
    assert_eq!(rt; rows[63].rank, 5);
    assert!(rt; !rows[0].used);
    assert_eq!(rt; rows[64].rank, 9);
    assert!(rt; rows[65].used);
}

fn standing(sheet: &OpenSheet<'_>) -> (bool, bool) {
    let marks = sheet.marks();
    (marks[0].is_standing(), marks[1].is_standing())
}

fn judge_both(sheet: &mut OpenSheet<'_>) -> bool {
    sheet.judge(0, &Composable).is_ok() & sheet.judge(1, &Deadline).is_ok()
}

// A change makes its own core loose, and every core that stands by a wide test; a refused one none.
#[test]
fn loosening(rt: HostRuntime) {
    let mut rows = [Row::EMPTY; 4];
    let mut sheet = OpenSheet::open(TWO_CORES, &mut rows);
    assert_eq!(rt; enter(&mut sheet, 0, 0, 1), 0);
    assert_eq!(rt; enter(&mut sheet, 1, 1, 1), 0);
    assert_eq!(rt; standing(&sheet), (false, false));
    assert!(rt; judge_both(&mut sheet));
    assert_eq!(rt; standing(&sheet), (true, true));
    assert_eq!(rt; number_of(sheet.withdraw(2)), 9);
    assert_eq!(rt; standing(&sheet), (true, true), "refused");
    assert_eq!(rt; enter(&mut sheet, 2, 1, 2), 0);
    assert_eq!(rt; standing(&sheet), (true, false), "on core 1");
    assert!(rt; judge_both(&mut sheet));
    assert_eq!(rt; number_of(sheet.amend(0, &PLAIN)), 0);
    assert_eq!(rt;
        standing(&sheet),
        (false, false),
        "on core 0, and core 1 stood by a wide test"
    );
    assert!(rt; judge_both(&mut sheet));
    assert!(rt; sheet.judge(1, &Composable).is_ok());
    assert_eq!(rt; number_of(sheet.withdraw(0)), 0);
    assert_eq!(rt;
        standing(&sheet),
        (false, true),
        "the latest judging counts"
    );
    let closed = sheet.close();
    assert_eq!(rt; standing(&closed.reopen()), (false, true));
}
