// Orders of a core's tasks: found, judged and written, by one text for every test.
#![tactic(auto)]

// An order, and what a search answers.
pub mod order;
// The search: the first order that passes, or that there is none.
pub mod search;
// Judging the present ranks.
pub mod judging;
// Writing an order as ranks.
pub mod writing;
