// What an open and a closed sheet allow: a task is entered on an open sheet, and only a closed one
// gives the report.
use bounds::deadline::Deadline;
use report::reporting::report;
use sheet::entry::Entry;
use sheet::open::OpenSheet;
use std::io;
use std::io::Write;
use table::board::Board;
use table::refusal::Refusal;
use table::row::{Figures, Row};

const ONE_MORE: Entry = Entry {
    number: 0,
    core: 0,
    rank: 64,
    figures: Figures {
        cost: 1,
        period: 100,
        deadline: 100,
        sensitivity: [0; 4],
        stress: [0; 4],
    },
};

// The file loaded on a sheet that is closed, reopened for one task more, and closed again.
fn load_and_report(board: Board, bytes: &[u8], out: &mut [u8]) -> Result<usize, Refusal> {
    let mut rows = [Row::EMPTY; 64];
    let mut sheet = OpenSheet::open(board, &mut rows);
    let _ = sheet.load(bytes);
    let closed = sheet.close();
    let mut open = closed.reopen();
    let entered = open.enter(&ONE_MORE);
    let last = open.close();
    entered?;
    report(&last, &Deadline, out)
}

// Nothing was judged or ordered, so every core is loose.
pub(crate) fn show_report(rt: &HostRuntime, board: Board, bytes: &[u8]) -> io::Result<()> {
    let mut out = [0u8; 4096];
    match load_and_report(board, bytes, &mut out) {
        Ok(size) => {
            println!(rt; "The report of the table as it was loaded, with one task more")?;
            rt.stdout().write_all(&out[..size.min(4096)])
        }
        Err(refusal) => println!(rt; "No task can be entered as number 0: refused {refusal}"),
    }
}
