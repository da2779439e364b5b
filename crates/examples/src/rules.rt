// Boards, rows, limits, sets and refusals.
use table::board::Board;
use table::refusal::Refusal;
use table::row::{Figures, Row};
use table::set::TaskSet;
use table::tasks::Tasks;

// Boards outside 1 to 8 cores or 0 to 4 resources get refusal 1.
#[test]
fn boards(rt: HostRuntime) {
    let told = [
        (1, 0, 0),
        (8, 4, 0),
        (0, 0, 1),
        (9, 0, 1),
        (1, 5, 1),
        (255, 255, 1),
    ];
    for (cores, resources, number) in told {
        let refusal = Board::new(cores, resources).err();
        assert_eq!(rt; refusal.map_or(0, Refusal::number), number);
    }
}

#[test]
fn refusal_numbers(rt: HostRuntime) {
    let all = [
        Refusal::BoardLimits,
        Refusal::FileLength,
        Refusal::BlockCheck,
        Refusal::BlockNumber,
        Refusal::BlockLayout,
        Refusal::FigureLimits,
        Refusal::NumberTooLarge,
        Refusal::NumberOccupied,
        Refusal::NumberEmpty,
        Refusal::CoreLacking,
        Refusal::RankUnavailable,
        Refusal::NoOrder,
        Refusal::NoBound,
        Refusal::BufferTooShort,
    ];
    for (refusal, number) in all.into_iter().zip(1..) {
        assert_eq!(rt; refusal.number(), number);
    }
}

const PLAIN: Figures = Figures {
    cost: 1,
    period: 10,
    deadline: 10,
    sensitivity: [0; 4],
    stress: [0; 4],
};

const MOST: u32 = 10_000_000;

fn with_times(cost: u32, period: u32, deadline: u32) -> Figures {
    Figures {
        cost,
        period,
        deadline,
        ..PLAIN
    }
}

// Each limit from both sides.
#[test]
fn limits(rt: HostRuntime) {
    let told = [
        (PLAIN, true),
        (with_times(1, MOST, 10), true),
        (with_times(1, MOST + 1, 10), false),
        (with_times(1, 9, 10), false),
        (with_times(1, 10, 0), false),
        (with_times(0, 10, 10), false),
        // A task may be longer than its deadline.
        (with_times(MOST, 10, 10), true),
        (with_times(MOST + 1, 10, 10), false),
    ];
    for (figures, fits) in told {
        assert_eq!(rt; figures.in_limits(), fits);
    }
}

#[test]
fn contention_limits(rt: HostRuntime) {
    let told = [
        ([MOST; 4], [0; 4], true),
        ([0, 0, 0, MOST + 1], [0; 4], false),
        ([0; 4], [MOST + 1, 0, 0, 0], false),
    ];
    for (sensitivity, stress, fits) in told {
        let figures = Figures {
            sensitivity,
            stress,
            ..PLAIN
        };
        assert_eq!(rt; figures.in_limits(), fits);
    }
}

// A row is a task when it is used, in limits and below place 64.
#[test]
fn tasks(rt: HostRuntime) {
    let row = Row {
        used: true,
        core: 3,
        rank: 2,
        figures: PLAIN,
    };
    let mut rows = [row; 66];
    rows[1] = Row { used: false, ..row };
    rows[2] = Row {
        figures: Figures { cost: 0, ..PLAIN },
        ..row
    };
    let tasks = Tasks::of(&rows);
    assert!(rt; tasks.at(0).is_some());
    assert!(rt; tasks.at(1).is_none(), "unused");
    assert!(rt; tasks.at(2).is_none(), "a broken limit");
    assert!(rt; tasks.at(63).is_some());
    assert!(rt; tasks.at(64).is_none(), "past place 63");
    assert!(rt; Tasks::of(&[Row::EMPTY]).at(0).is_none());
}

// Rank 1 is the highest; other cores and empty rows do not stand above.
#[test]
fn ranked(rt: HostRuntime) {
    let row = Row {
        used: true,
        core: 0,
        rank: 5,
        figures: PLAIN,
    };
    let rows = [
        row,
        Row { rank: 4, ..row },
        Row { rank: 6, ..row },
        Row {
            rank: 1,
            core: 1,
            ..row
        },
        Row {
            rank: 1,
            used: false,
            ..row
        },
    ];
    let above = TaskSet::higher_ranked(&rows, 0);
    for (number, is_above) in [
        (0, false),
        (1, true),
        (2, false),
        (3, false),
        (4, false),
        (64, false),
    ] {
        assert_eq!(rt; above.has(number), is_above);
    }
}

#[test]
fn sets(rt: HostRuntime) {
    let set = TaskSet::EMPTY.with(0).with(63).with(64);
    for (number, has) in [(0, true), (1, false), (63, true), (64, false)] {
        assert_eq!(rt; set.has(number), has);
    }
    assert_eq!(rt; set.size(), 2);
    assert!(rt; !set.without(0).has(0));
    assert_eq!(rt; set.without(5).without(64).size(), 2);
}
