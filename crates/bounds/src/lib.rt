// The two tests that bound a task's response time: the composable test and the deadline test.
#![tactic(auto)]

// The composable test: contention is all that the own core can suffer.
pub mod composable;
// The deadline test: contention is what the other cores can inflict or the own core can suffer.
pub mod deadline;
// The response test: all response times of a table together.
pub mod response;
// What the tests keep of a board and its rows for many questions.
pub mod prepared;
// The recurrence of one question.
mod question;
// The tasks that weigh on a question, gathered.
mod gathering;
// How a task weighs on another, and sums of such loads.
mod load;
// Lengths by task number.
mod lengths;
