// Every change of a single byte in the worked file: the check refuses it; and once the check is
// made good, what the byte stands for decides.
use crate::filed::refused;
use crate::files::{changed, mended, worked_file};
use std::process::Abort;

// The refusal of the worked file with a byte changed and its check made good, or 0 where a record
// has changed: one of the three, or one more of zeros.
fn expected(at: usize, byte: u8) -> u8 {
    match (at, byte) {
        (0..2, _) => 4,
        (2, 3..=10) => 0,
        (2..8 | 152.., _) => 5,
        _ => 0,
    }
}

fn check_change(rt: &impl Abort, at: usize, byte: u8) {
    let file = changed(worked_file(), at, byte);
    assert_eq!(rt; refused(&file), 3, "the check differs");
    if at < 510 {
        assert_eq!(rt; refused(&mended(file)), expected(at, byte));
    }
}

// Gives one byte every other value.
fn check_changes(rt: &impl Abort, at: usize, stands: u8) {
    for byte in (0..=255).filter(|byte| *byte != stands) {
        check_change(rt, at, byte);
    }
}

#[test]
fn every_single_byte(rt: HostRuntime) {
    for (at, stands) in worked_file().into_iter().enumerate() {
        check_changes(&rt, at, stands);
    }
}
