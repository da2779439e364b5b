// Whole runs of calls on a sheet, and what holds after any list of them.
#![tactic(auto)]

// Calls as values, and their answers.
pub mod call;
// One call, and a list of calls, applied to an open sheet.
mod applying;
// A run: the one call that carries the whole promise.
pub mod run;
