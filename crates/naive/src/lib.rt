// A second, naive reckoning of the analyser's questions, in data of its own but for boards and rows;
// and random tables, whose questions are answered both ways.
#![tactic(auto)]

// Sets of task numbers.
pub mod numbers;
// Random numbers from a fixed seed.
pub mod random;
// How many questions there were, and how many differed.
pub mod tally;
// Random boards, rows and sets.
pub mod tables;
// Single questions, reckoned as they are told.
pub mod recurrence;
// The response test, round by round.
pub mod rounds;
// Orders, by trying them all.
mod orders;
// The file of a table, byte by byte.
pub mod files;
// Files, both ways.
mod written;
// Tables, both ways.
pub mod compare;
