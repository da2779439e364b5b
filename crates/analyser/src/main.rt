// Walks through one table: the board, each task with its figures and what the two tests say of it,
// all response times together, the table as a file, and an order for core 0.
#![tactic(auto)]

mod ordered;

use bounds::deadline::Deadline;
use figures::{worked_board, worked_rows};
use ordered::{FoundTold, NoneTold};
use ordering::writing::order_core;
use std::io;
use table::board::Board;
use table::row::Row;
use telling::board::BoardTold;
use telling::file::FileTold;
use telling::tasks::TasksTold;

// Orders a core by the deadline test and writes the ranks.
fn order_and_show(rt: &impl Print, board: &Board, rows: &mut [Row], core: u8) -> io::Result<()> {
    println!(rt; "Ordering core {core} by the deadline test")?;
    match order_core(board, rows, core, &Deadline) {
        Ok(found) => println!(rt; "{}", FoundTold(&found)),
        Err(none) => println!(rt; "{}", NoneTold(none)),
    }
}

fn main(rt: HostRuntime) -> io::Result<()> {
    let board = worked_board();
    let mut rows = worked_rows();
    println!(rt; "{}\n", BoardTold(&board))?;
    println!(rt;
        "{}\n",
        TasksTold {
            board: &board,
            rows: &rows
        }
    )?;
    println!(rt;
        "{}\n",
        FileTold {
            board: &board,
            rows: &rows
        }
    )?;
    order_and_show(&rt, &board, &mut rows, 0)
}
