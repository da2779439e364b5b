// Files: written, read back, damaged and refused.
use crate::files::{changed, joined, mended, worked_file};
use figures::{worked_board, worked_rows};
use table::board::Board;
use table::refusal::Refusal;
use table::row::{Figures, Row};
use tablefile::checking::{check_block, check_length};
use tablefile::decoding::decode;
use tablefile::reader::Reader;
use tablefile::writing::write_file;

const LARGEST: Board = Board {
    cores: 8,
    resources: 4,
};

const ROW: Row = Row {
    used: true,
    core: 7,
    rank: 64,
    figures: Figures {
        cost: 0x010203,
        period: 10_000_000,
        deadline: 9_999_999,
        sensitivity: [0, 1, 2, 256],
        stress: [65_536, 5, 6, 7],
    },
};

// All checks that a file for a board has to pass.
fn check_file(board: &Board, bytes: &[u8]) -> Result<(), Refusal> {
    check_length(bytes.len())?;
    let reader = Reader::new(bytes);
    for number in (0..64).take(reader.blocks()) {
        check_block(board, number, reader.block(number))?;
    }
    Ok(())
}

// The number of the first refusal of a file for the worked board, or 0.
pub(crate) fn refused(bytes: &[u8]) -> u8 {
    match check_file(&worked_board(), bytes) {
        Ok(()) => 0,
        Err(refusal) => refusal.number(),
    }
}

// What stands behind the file in the buffer is left.
#[test]
fn worked_bytes(rt: HostRuntime) {
    let mut out = [7; 600];
    let told = write_file(&worked_board(), &worked_rows(), &mut out);
    assert_eq!(rt; told, Ok(512));
    let expected = [
        0, 0, 3, 2, 1, 0, 0, 0, 1, 0, 1, 0, 0, 0, 0, 2, 0, 0, 0, 10, 0, 0, 0, 10,
    ];
    assert!(rt; out.starts_with(&expected));
    assert_eq!(rt; out[56], 2, "the second record's number");
    assert_eq!(rt; out[105], 1, "the third record's core");
    assert!(rt; out.iter().skip(152).take(358).all(|byte| *byte == 0));
    assert_eq!(rt; out[510], 0);
    assert_eq!(rt; out[511], 114);
    assert!(rt; out.iter().skip(512).all(|byte| *byte == 7));
    assert_eq!(rt; refused(&worked_file()), 0);
}

#[test]
fn worked_read_back(rt: HostRuntime) {
    let file = worked_file();
    let reader = Reader::new(&file);
    assert_eq!(rt; reader.blocks(), 1);
    assert_eq!(rt; reader.count(0), 3);
    assert_eq!(rt; reader.count(1), 0);
    let (bytes, block, position) = reader.record(0, 2);
    assert_eq!(rt; block, 0);
    assert_eq!(rt; position, 2);
    assert_eq!(rt; bytes.len(), 48);
    let record = decode(bytes);
    assert_eq!(rt; record.number, 3);
    assert_eq!(rt; record.fourth, 0);
    assert!(rt; record.row.used);
    assert_eq!(rt; record.row.core, 1);
    assert_eq!(rt; record.row.rank, 1);
    assert_eq!(rt; record.row.figures.cost, 4);
    assert_eq!(rt; record.row.figures.period, 15);
    assert_eq!(rt; record.row.figures.deadline, 15);
    assert_eq!(rt; record.row.figures.sensitivity, [1, 0, 0, 0]);
    assert_eq!(rt; record.row.figures.stress, [1, 0, 0, 0]);
    let (none, _, _) = reader.record(1, 0);
    assert_eq!(rt; none.len(), 0, "past the end");
    assert!(rt; !decode(none).row.used);
}

// 64 tasks fill seven blocks, the last with four records.
#[test]
fn full_table(rt: HostRuntime) {
    let mut out = [0; 3584];
    assert_eq!(rt; write_file(&LARGEST, &[ROW; 66], &mut out), Ok(3584));
    let reader = Reader::new(&out);
    assert_eq!(rt; reader.blocks(), 7);
    assert!(rt; check_file(&LARGEST, &out).is_ok());
    assert_eq!(rt; reader.count(5), 10);
    assert_eq!(rt; reader.count(6), 4);
    let (bytes, _, _) = reader.record(6, 3);
    let record = decode(bytes);
    assert_eq!(rt; record.number, 63);
    assert_eq!(rt; record.row.core, 7);
    assert_eq!(rt; record.row.rank, 64);
    assert_eq!(rt; record.row.figures.cost, 66_051);
    assert_eq!(rt; record.row.figures.period, 10_000_000);
    assert_eq!(rt; record.row.figures.sensitivity, [0, 1, 2, 256]);
    assert_eq!(rt; record.row.figures.stress, [65_536, 5, 6, 7]);
}

// No task makes one block without a record; rows that are no tasks are left out.
#[test]
fn no_tasks(rt: HostRuntime) {
    let rows = [Row::EMPTY, Row { used: false, ..ROW }];
    let mut out = [7; 512];
    let told = write_file(&worked_board(), &rows, &mut out);
    assert_eq!(rt; told, Ok(512));
    assert_eq!(rt; out[2], 0);
    assert_eq!(rt; out[511], 3);
    assert_eq!(rt; refused(&out), 0);
}

#[test]
fn lengths(rt: HostRuntime) {
    let told = [
        (0, 2),
        (1, 2),
        (511, 2),
        (513, 2),
        (32_767, 2),
        (32_769, 2),
        (33_280, 2),
        (512, 0),
        (32_768, 0),
    ];
    for (length, number) in told {
        let refusal = check_length(length).err();
        assert_eq!(rt; refusal.map_or(0, Refusal::number), number);
    }
}

// A byte of the worked file, its new value, and the refusal once the check is made good again.
#[test]
fn damaged(rt: HostRuntime) {
    let damages = [
        (0, 1, 4),
        (1, 1, 4),
        (2, 2, 5),
        (2, 11, 5),
        (2, 255, 5),
        (3, 3, 5),
        (4, 0, 5),
        (5, 1, 5),
        (6, 1, 5),
        (7, 255, 5),
        (152, 1, 5),
        (487, 1, 5),
        (488, 1, 5),
        (509, 1, 5),
        // A fourth record of zeros, and figures that are no task's: the blocks are sound.
        (2, 4, 0),
        (11, 1, 0),
        (12, 255, 0),
    ];
    for (at, byte, refusal) in damages {
        let file = changed(worked_file(), at, byte);
        assert_eq!(rt; refused(&file), 3, "the check differs");
        assert_eq!(rt; refused(&mended(file)), refusal);
    }
    assert_eq!(rt; refused(&changed(worked_file(), 510, 1)), 3);
    assert_eq!(rt; refused(&changed(worked_file(), 511, 0)), 3);
}

// Of two faults the earlier is told.
#[test]
fn two_faults(rt: HostRuntime) {
    let file = changed(worked_file(), 1, 1);
    let both = changed(file, 2, 11);
    assert_eq!(rt; refused(&both[0..511]), 2, "length before check");
    assert_eq!(rt; refused(&file), 3, "check before number");
    assert_eq!(rt;
        refused(&changed(worked_file(), 2, 11)),
        3,
        "check before layout"
    );
    assert_eq!(rt; refused(&mended(both)), 4, "number before layout");
    let first = mended(changed(worked_file(), 3, 3));
    assert_eq!(rt; refused(&joined(first, both)), 5, "a block before the next");
}

#[test]
fn short_buffer(rt: HostRuntime) {
    let mut out = [9; 511];
    let told = write_file(&worked_board(), &worked_rows(), &mut out);
    assert_eq!(rt; told.map_err(Refusal::number), Err(14));
    assert_eq!(rt; out, [9; 511]);
}
