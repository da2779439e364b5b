// What can be read of an open sheet without a change.
ghost use Rattle.bounds.specs.Settling.{SettlesInto, after_settle, settle_answer};
ghost use Rattle.sheet.specs.Reading.{bound_answer};
ghost use Rattle.sheet.specs.State.{state_of};
ghost use Rattle.std.specs.Prelude.{◌≡◌, length};

use crate::marks::Mark;
use crate::open::OpenSheet;
use bounds::response::{Unsettled, settle};
use table::refusal::Refusal;
use table::row::Row;
use table::set::TaskSet;
use table::testing::Test;

impl OpenSheet<'_> {
    // The rows as they are.
    pub fn rows(&self) -> &[Row]
        ensures answer { result.now ≡ self.now.rows.now }
    {
        &self.rows[..]
    }

    // The marks of the cores, by core; those of cores that the board lacks are loose.
    pub fn marks(&self) -> [Mark; 8]
        ensures answer { result ≡ self.now.marks }
    {
        self.marks
    }

    // The bound of a task by a test under the present ranks.
    pub fn bound<T: Test>(&self, number: usize, test: &T) -> Result<u32, Refusal>
        ensures answer { result ≡ bound_answer (T.Test.meaning test.now) (state_of self.now) number }
    {
        self.check_task(number)?;
        let above = TaskSet::higher_ranked(self.rows, number);
        test.bound(&self.board, self.rows, number, &above)
            .ok_or(Refusal::NoBound)
    }

    // Settles all response times together under the present ranks: one bound for each row, 0 for an
    // empty one, and the round is told. What is behind them is left; on refusal nothing is written.
    pub fn settle(&self, times: &mut [u32]) -> Result<u32, Unsettled>
        ensures answer { result ≡ settle_answer self.now.board self.now.rows.now (length times.old) }
        ensures buffer { times.new ≡ after_settle self.now.board self.now.rows.now times.old }
        ensures settles { SettlesInto self.now.board self.now.rows.now times.old result times.new }
    {
        settle(&self.board, self.rows, times)
    }
}
