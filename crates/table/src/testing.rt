// What a test of a task is. It bounds the response time of one task under a set of other tasks of
// its core that count as higher.
ghost use Rattle.std.specs.Prelude.{◌≡◌, ℕ, Bool, Option};
ghost use Rattle.table.specs.Sets.{Set, members};
ghost use Rattle.table.specs.Tests.{Laws, Meaning};

use crate::board::Board;
use crate::row::Row;
use crate::set::TaskSet;

// Board and rows go apart, here and in every function that takes both: the meaning of a test is a
// function of the two, and where an order is written the rows alone are lent to be changed.
pub trait Test {
    // What the test keeps of a board and its rows, for many questions about them.
    type Prepared: Drop;

    // Whether rows of other cores can make a difference: a wide test. If not, it is own-core.
    const WIDE: bool;

    // The constant, as clauses name it.
    ghost WIDE: { Bool };

    // `WIDE`, as the laws read it.
    ghost wide: { Bool };

    // The fixed function that the test computes.
    ghost meaning: { Self → Meaning };

    // What the prepared rows make of a number and a set.
    ghost answers: { Self → Self.Prepared → ℕ → Set → Option ℕ };

    // `WIDE`, for code that is generic in the test.
    fn is_wide(&self) -> bool
        ensures answer { result ≡ wide };

    fn prepare(&self, board: &Board, rows: &[Row]) -> Self::Prepared
        ensures answer { answers self.now result ≡ meaning self.now board.now rows.now };

    fn ask(&self, prepared: &Self::Prepared, number: usize, above: &TaskSet) -> Option<u32>
        ensures answer { result ≡ answers self.now prepared.now number (members above.now) };

    // One question: prepared and asked.
    fn bound(&self, board: &Board, rows: &[Row], number: usize, above: &TaskSet) -> Option<u32>
        ensures answer { result ≡ meaning self.now board.now rows.now number (members above.now) }
    {
        let prepared = self.prepare(board, rows);
        self.ask(&prepared, number, above)
    }

    ghost laws: { (test : Self) → Laws wide (meaning test) };
}
