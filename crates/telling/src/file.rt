// The table as a file: its size, its first bytes, and what reading it back gives.
ghost use Rattle.telling.specs.Files.{checks_text, file_text, tally_text};
ghost use Rattle.std.specs.Prelude.{Some};

use crate::back::{Tally, check_file};
use crate::hex::BytesTold;
use std::fmt;
use table::board::Board;
use table::refusal::Refusal;
use table::row::Row;
use tablefile::writing::write_file;

// Seven blocks, which hold 64 tasks.
const ROOM: usize = 3584;

// The header and the first record.
const FRONT: usize = 56;

// Whether a file passes the checks.
#[derive(Clone, Copy)]
struct ChecksTold(Result<(), Refusal>);

impl fmt::Display for ChecksTold {
    ghost output = { λ told. Some (checks_text told.0) };

    #[tactic(auto, unfolding(crate::specs::Files::checks_text))]
    fn fmt<W: fmt::Write>(&self, f: &mut fmt::Formatter<W>) -> fmt::Result {
        match self.0 {
            Ok(()) => f.write_str("  its length and every block pass all checks"),
            Err(refusal) => write!(f, "  it is refused: {refusal}"),
        }
    }
}

impl fmt::Display for Tally {
    ghost output = { λ tally. Some (tally_text tally.read tally.same) };

    #[tactic(auto, unfolding(crate::specs::Files::tally_text))]
    fn fmt<W: fmt::Write>(&self, f: &mut fmt::Formatter<W>) -> fmt::Result {
        let Tally { read, same } = *self;
        write!(
            f,
            "  read back, it has {read} records, and {same} of them are the same as in the table"
        )
    }
}

// A table that is to be written as a file.
#[derive(Clone, Copy)]
pub struct FileTold<'a> {
    pub board: &'a Board,
    pub rows: &'a [Row],
}

impl fmt::Display for FileTold<'_> {
    ghost output = { λ told. Some (file_text told.board.now told.rows.now) };

    fn fmt<W: fmt::Write>(&self, f: &mut fmt::Formatter<W>) -> fmt::Result {
        let FileTold { board, rows } = *self;
        let mut buffer = [0; ROOM];
        match write_file(board, rows, &mut buffer) {
            Ok(size) => {
                let bytes = &buffer[..size.min(ROOM)];
                let front = BytesTold(&bytes[..bytes.len().min(FRONT)]);
                let checks = ChecksTold(check_file(board, bytes));
                let back = Tally::of(bytes, rows);
                write!(
                    f,
                    "The table as a file has {size} bytes and begins\n{front}{checks}\n{back}"
                )
            }
            Err(refusal) => write!(f, "The table is not written: refused {refusal}"),
        }
    }
}
