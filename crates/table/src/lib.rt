// The task table: boards, rows, tasks, sets of task numbers, and what a test of a task is.
#![tactic(auto)]

// The refusals, each with its number.
pub mod refusal;
// Boards, and the limits of cores and shared resources.
pub mod board;
// Rows as plain numbers, and the limits of their figures.
pub mod row;
// A task: the figures of a row that passed the one check of the limits.
pub mod task;
// The tasks of a row list, by number.
pub mod tasks;
// Sets of task numbers.
pub mod set;
// The tasks that the present ranks put above a task.
pub mod ranks;
// What a test is: its meaning and its laws.
pub mod testing;
// A test with the board and the rows that it is asked about.
pub mod asking;
