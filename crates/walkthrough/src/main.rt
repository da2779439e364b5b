// Reads a table file, orders every core by the deadline test, and tells step by step what it found:
// the board, what each call answered, each task with its figures and bounds, all response times
// together, the table as a file with the ranks that it has now, and a report.
#![tactic(auto)]

mod calls;
mod protocol;

use bounds::deadline::Deadline;
use calls::CallsTold;
use promise::call::Call;
use promise::run::run;
use protocol::show_report;
use std::io::Read;
use std::{array, io};
use table::board::Board;
use table::refusal::Refusal;
use table::row::Row;
use tablefile::checking::check_length;
use telling::board::BoardTold;
use telling::file::FileTold;
use telling::tasks::TasksTold;

// The board that the first block of a file states.
fn board_of(bytes: &[u8]) -> Result<Board, Refusal> {
    check_length(bytes.len())?;
    match bytes {
        [_, _, _, cores, resources, ..] => Board::new(*cores, *resources),
        _ => Err(Refusal::FileLength),
    }
}

fn show_refusal(rt: &HostRuntime, refusal: Refusal) -> io::Result<()> {
    println!(rt; "The file is refused: {refusal}")
}

// Loads the file, orders each core by rising number, and tells what came of it.
fn walk(rt: &HostRuntime, board: &Board, bytes: &[u8]) -> io::Result<()> {
    let mut rows = [Row::EMPTY; 64];
    let mut answers = [None; 9];
    let mut calls = [Call::Load(bytes); 9];
    for (call, core) in calls.iter_mut().skip(1).zip(0..) {
        *call = Call::Order(core);
    }
    let cores = usize::from(board.cores);
    let made = &calls[..=cores];
    match run(*board, &mut rows, &Deadline, made, &mut answers) {
        Ok(marks) => {
            let calls = CallsTold {
                answers: &answers[..=cores],
                marks: &marks[..cores],
            };
            let rows = &rows;
            println!(rt; "{}\n", BoardTold(board))?;
            println!(rt; "{calls}\n")?;
            println!(rt; "{}\n", TasksTold { board, rows })?;
            println!(rt; "{}\n", FileTold { board, rows })?;
            show_report(rt, *board, bytes)
        }
        Err(refusal) => show_refusal(rt, refusal),
    }
}

fn main(rt: HostRuntime) -> io::Result<()> {
    let mut file = Vec::new(rt.alloc());
    rt.stdin().read_to_end(&mut file)?;
    let bytes = file.as_slice();
    match board_of(bytes) {
        Ok(board) => walk(&rt, &board, bytes),
        Err(refusal) => show_refusal(&rt, refusal),
    }
}
