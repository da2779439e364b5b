// The sheet: a task table under edit. Its rows lie in a list that the caller lends, and each core
// of the board is marked standing or loose.
#![tactic(auto)]

// What a person enters, and what a record of a file asks to enter.
pub mod entry;
// The marks of the cores, and what loosens them.
pub mod marks;
// Why a load, a judging or an ordering is refused.
pub mod refused;
// The open sheet, and every call on it.
pub mod open;
// The closed sheet.
pub mod closed;
// Whether a rank is free on a core.
mod ranks;
