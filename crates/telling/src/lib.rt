// What the programs tell of a table, as text: the board, each task with its bounds, all response
// times together, and the table as a file.
#![tactic(auto)]

// A counted word.
pub mod counted;
// The board.
pub mod board;
// The tasks, each with its figures and what the tests say of it, and all response times together.
mod settled;
mod task;
pub mod tasks;
// The table as a file, and what reading it back gives.
mod back;
pub mod file;
mod hex;
