// Judging and ordering a core by a test.
ghost use Rattle.ordering.specs.Judging.{Judges, unbound};
ghost use Rattle.ordering.specs.Search.{FewTrials};
ghost use Rattle.ordering.specs.Told.{outcome_of};
ghost use Rattle.ordering.specs.Writing.{OrdersCore, after_search};
ghost use Rattle.sheet.specs.Passing.{JudgedSo, OrderedSo, after_judge, after_order, asked, judge_answer, order_answer, searched};
ghost use Rattle.sheet.specs.State.{Becomes, IsLentAs, state_of};
ghost use Rattle.table.specs.Rows.{on_core};
ghost use Rattle.std.specs.Prelude.{◌≡◌};

use crate::marks::Mark;
use crate::open::OpenSheet;
use crate::refused::{NotOrdered, NotPassing};
use ordering::judging::find_unbound;
use ordering::order::{Found, NoOrder};
use ordering::writing::order_core;
use table::testing::Test;

impl OpenSheet<'_> {
    // The task of highest rank on the core without a bound under the present ranks, if any.
    fn unbound_on<T: Test>(&self, core: u8, test: &T) -> Option<usize>
        ensures answer { result ≡ unbound (asked (T.Test.meaning test.now) (state_of self.now)) self.now.rows.now (on_core self.now.rows.now core) }
        ensures judges { Judges (asked (T.Test.meaning test.now) (state_of self.now)) self.now.rows.now core result }
    {
        find_unbound(&self.board, self.rows, core, test)
    }

    // Marks the core standing if its present ranks pass.
    pub fn judge<T: Test>(&mut self, core: u8, test: &T) -> Result<(), NotPassing>
        ensures answer { result ≡ judge_answer (T.Test.meaning test.now) (state_of self.old) core }
        ensures after { Becomes self.old self.new (after_judge (T.Test.meaning test.now) T.Test.wide (state_of self.old) core) }
        ensures judges { JudgedSo (T.Test.meaning test.now) (state_of self.old) core result }
    {
        if core >= self.board.cores {
            return Err(NotPassing::CoreLacking);
        }
        match self.unbound_on(core, test) {
            Some(number) => Err(NotPassing::NoBound(number)),
            None => {
                self.marks[core as usize] = Mark::standing(test.is_wide());
                Ok(())
            }
        }
    }

    // Searches for an order of the core's tasks and writes its ranks.
    fn rank_core<T: Test>(&mut self, core: u8, test: &T) -> Result<Found, NoOrder>
        ensures answer { outcome_of result ≡ searched (T.Test.meaning test.now) (state_of self.old) core }
        ensures rows { self.new.rows.now ≡ after_search self.old.rows.now (outcome_of result) }
        ensures board { self.new.board ≡ self.old.board }
        ensures marks { self.new.marks ≡ self.old.marks }
        ensures lent { IsLentAs self.old self.new }
        ensures trials { FewTrials (on_core self.old.rows.now core) (outcome_of result) }
        ensures orders { OrdersCore (T.Test.meaning test.now self.old.board) self.old.rows.now core (outcome_of result) self.new.rows.now }
    {
        let board = self.board;
        order_core(&board, self.rows, core, test)
    }

    // Finds the first order of the core's tasks that passes, writes its ranks and marks the core
    // standing. The trials are told.
    pub fn order<T: Test>(&mut self, core: u8, test: &T) -> Result<u32, NotOrdered>
        ensures answer { result ≡ order_answer (T.Test.meaning test.now) (state_of self.old) core }
        ensures after { Becomes self.old self.new (after_order (T.Test.meaning test.now) T.Test.wide (state_of self.old) core) }
        ensures orders { OrderedSo (T.Test.meaning test.now) (state_of self.old) core result self.new.rows.now }
    {
        if core >= self.board.cores {
            return Err(NotOrdered::CoreLacking);
        }
        let found = self.rank_core(core, test)?;
        self.marks[core as usize] = Mark::standing(test.is_wide());
        Ok(found.trials)
    }
}
