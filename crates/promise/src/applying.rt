// One call, and a list of calls, applied to an open sheet.
ghost use Rattle.std.specs.Prelude.{◌≡◌, ◌≤◌, ◌++◌, length, drop};
ghost use Rattle.promise.specs.Calls.{after, after_all, answer_to, answers_to};
ghost use Rattle.sheet.specs.State.{Becomes, state_of};

use crate::call::{Answer, Call};
use sheet::open::OpenSheet;
use table::testing::Test;

// A match and no closure in the call: a list of calls is what the promise of a run is stated for.
pub(crate) fn apply<T: Test>(sheet: &mut OpenSheet<'_>, test: &T, call: &Call<'_>) -> Answer
    ensures answer { result ≡ answer_to (T.Test.meaning test.now) (state_of sheet.old) call.now }
    ensures after { Becomes sheet.old sheet.new (after (T.Test.meaning test.now) T.Test.wide (state_of sheet.old) call.now) }
{
    match call {
        Call::Enter(entry) => Answer::Entered(sheet.enter(entry)),
        Call::Load(bytes) => Answer::Loaded(sheet.load(bytes)),
        Call::Withdraw(number) => Answer::Withdrawn(sheet.withdraw(*number)),
        Call::Amend(number, figures) => Answer::Amended(sheet.amend(*number, figures)),
        Call::Judge(core) => Answer::Judged(sheet.judge(*core, test)),
        Call::Order(core) => Answer::Ordered(sheet.order(*core, test)),
    }
}

// One after the other; there is a place for each answer.
pub(crate) fn apply_all<T: Test>(
    sheet: &mut OpenSheet<'_>,
    test: &T,
    calls: &[Call<'_>],
    answers: &mut [Option<Answer>],
)
    requires { length calls.now ≤ length answers.old }
    ensures answers { answers.new ≡ answers_to (T.Test.meaning test.now) T.Test.wide (state_of sheet.old) calls.now ++ drop (length calls.now) answers.old }
    ensures after { Becomes sheet.old sheet.new (after_all (T.Test.meaning test.now) T.Test.wide (state_of sheet.old) calls.now) }
{
    for (i, call) in calls.iter().enumerate() {
        answers[i] = Some(apply(sheet, test, call));
    }
}
