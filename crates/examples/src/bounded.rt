// The two tests on small tables.
ghost use Rattle.std.specs.Prelude.{◌≡◌, Ok};

use bounds::composable::Composable;
use bounds::deadline::Deadline;
use bounds::prepared::RivalTable;
use figures::{task_row, worked_board, worked_rows};
use std::alloc::AllocError;
use std::panic::Expect;
use table::board::Board;
use table::row::{Figures, Row};
use table::set::TaskSet;
use table::testing::Test;

// A task that no other core can delay, with its period for a deadline.
fn task(core: u8, rank: u8, cost: u32, period: u32) -> Row {
    task_row(core, rank, cost, period, period, 0, 0)
}

const ONE_CORE: Board = Board {
    cores: 1,
    resources: 0,
};

const TWO_CORES: Board = Board {
    cores: 2,
    resources: 2,
};

// A task's bound under the present ranks.
fn bound<T: Test>(test: &T, board: &Board, rows: &[Row], number: usize) -> Option<u32> {
    test.bound(board, rows, number, &TaskSet::higher_ranked(rows, number))
}

fn wide(board: &Board, rows: &[Row], number: usize) -> Option<u32> {
    bound(&Deadline, board, rows, number)
}

fn own(board: &Board, rows: &[Row], number: usize) -> Option<u32> {
    bound(&Composable, board, rows, number)
}

#[test]
fn worked(rt: HostRuntime) {
    let board = worked_board();
    let rows = worked_rows();
    let bounds = [None, Some(3), Some(7), Some(5), None];
    for (number, bound) in bounds.into_iter().enumerate() {
        assert_eq!(rt; wide(&board, &rows, number), bound);
    }
    assert_eq!(rt; own(&board, &rows, 2), Some(8));
}

// A clone of a prepared table is that table.
fn cloned(prepared: &RivalTable) -> Result<RivalTable, AllocError>
    ensures { result ≡ Ok prepared.now }
{
    prepared.clone()
}

// Whoever prepared a table may use it by value more than once.
#[test]
fn copied(rt: HostRuntime) {
    let rows = worked_rows();
    let prepared = Deadline.prepare(&worked_board(), &rows);
    let above = TaskSet::higher_ranked(&rows, 2);
    let clone = cloned(&prepared).ok().expect(&rt, "not cloned");
    for again in [prepared, prepared, clone] {
        assert_eq!(rt; Deadline.ask(&again, 2, &above), Some(7));
    }
}

// A release at the very end of the window is not counted.
#[test]
fn exact_multiple(rt: HostRuntime) {
    let fits = [task(0, 1, 6, 12), task(0, 2, 6, 12)];
    assert_eq!(rt; wide(&ONE_CORE, &fits, 1), Some(12));
    let over = [task(0, 1, 6, 11), task(0, 2, 6, 11)];
    assert_eq!(rt; wide(&ONE_CORE, &over, 1), None);
}

// The lesser is taken for each resource, and then summed: 1 + 2, and not the lesser of 11 and 22.
#[test]
fn lesser_by_resource(rt: HostRuntime) {
    let plain = task(0, 1, 10, 100);
    let me = Row {
        figures: Figures {
            sensitivity: [1, 10, 0, 0],
            ..plain.figures
        },
        ..plain
    };
    let rival = Row {
        core: 1,
        figures: Figures {
            stress: [10, 1, 0, 0],
            ..plain.figures
        },
        ..plain
    };
    let rows = [me, rival];
    assert_eq!(rt; wide(&TWO_CORES, &rows, 0), Some(13));
    assert_eq!(rt; own(&TWO_CORES, &rows, 0), Some(21));
}

// Of the set, the number itself, empty rows and tasks of other cores do not count.
#[test]
fn what_counts(rt: HostRuntime) {
    let rows = [
        task(0, 1, 3, 20),
        task(0, 2, 4, 20),
        task(1, 1, 5, 20),
        Row::EMPTY,
    ];
    let all = TaskSet::EMPTY.with(0).with(1).with(2).with(3).with(40);
    assert_eq!(rt; Deadline.bound(&TWO_CORES, &rows, 0, &all), Some(7));
    assert_eq!(rt;
        Deadline.bound(&TWO_CORES, &rows, 0, &TaskSet::EMPTY),
        Some(3)
    );
    assert_eq!(rt;
        Deadline.bound(&ONE_CORE, &rows, 2, &all),
        None,
        "its core is not on the board"
    );
}

// Prepared once, asked often.
#[test]
fn prepared(rt: HostRuntime) {
    let board = worked_board();
    let rows = worked_rows();
    let table = Deadline.prepare(&board, &rows);
    assert_eq!(rt; Deadline.ask(&table, 1, &TaskSet::EMPTY), Some(3));
    assert_eq!(rt; Deadline.ask(&table, 3, &TaskSet::EMPTY), Some(5));
    assert!(rt; Deadline.is_wide());
    assert!(rt; !Composable.is_wide());
}
