// The report of a table, and the whole program as a function from a file to a text.
#![tactic(auto)]

// Text that is put together in memory of its own.
pub mod text;
// The lines of a report.
mod lines;
// A report put together.
mod composing;
// The report of a closed sheet.
pub mod reporting;
// What the program prints for a file.
pub mod analysing;
