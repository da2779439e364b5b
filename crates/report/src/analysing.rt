// What the program prints for a file: the whole way from its bytes to the bytes of the report.
ghost use Rattle.std.specs.Prelude.{◌≡◌, ◌+◌, ◌≤◌, ◌++◌};
ghost use Rattle.report.specs.Lines.{refused_line};
ghost use Rattle.report.specs.Program.{Printed, printed_for, stop_in};
ghost use Rattle.report.specs.Texts.{shown};
ghost use Rattle.table.specs.Refusals.{number_of};

use crate::composing::compose;
use crate::lines::push_refused;
use crate::text::Text;
use bounds::deadline::Deadline;
use promise::call::{Answer, Call};
use promise::run::run;
use sheet::refused::Stopped;
use table::board::Board;
use table::refusal::Refusal;
use table::row::Row;
use tablefile::checking::check_length;

// The line of a refusal.
fn refused(refusal: Refusal, entered: u64) -> Text
    ensures { shown result ≡ refused_line (number_of refusal) entered }
{
    let mut text = Text::new();
    push_refused(&mut text, refusal.number(), entered);
    text
}

// Where a load stopped, if the answer is of one that did.
fn stop_of(answer: &Option<Answer>) -> Option<Stopped>
    ensures { result ≡ stop_in answer.now }
{
    match answer {
        Some(Answer::Loaded(Err(stop))) => Some(*stop),
        _ => None,
    }
}

// Loads the file, orders each core by rising number, and reports; a refused load is told instead.
fn analyse_for(board: Board, bytes: &[u8]) -> Text
    ensures { shown result ≡ printed_for board bytes.now }
{
    let mut rows = [Row::EMPTY; 64];
    let mut answers = [None; 9];
    let calls = [
        Call::Load(bytes),
        Call::Order(0),
        Call::Order(1),
        Call::Order(2),
        Call::Order(3),
        Call::Order(4),
        Call::Order(5),
        Call::Order(6),
        Call::Order(7),
    ];
    let made = &calls[0..board.cores as usize + 1];
    match run(board, &mut rows, &Deadline, made, &mut answers) {
        Ok(marks) => match stop_of(&answers[0]) {
            Some(stop) => refused(stop.cause, stop.entered as u64),
            None => compose(&board, &rows, &marks, &Deadline),
        },
        Err(refusal) => refused(refusal, 0),
    }
}

// What the program prints for any bytes.
pub fn analyse(bytes: &[u8]) -> Text
    ensures prints { Printed bytes.now (shown result) }
{
    if let Err(refusal) = check_length(bytes.len()) {
        return refused(refusal, 0);
    }
    match bytes {
        [_, _, _, cores, resources, ..] => match Board::new(*cores, *resources) {
            Ok(board) => analyse_for(board, bytes),
            Err(refusal) => refused(refusal, 0),
        },
        _ => refused(Refusal::FileLength, 0),
    }
}
