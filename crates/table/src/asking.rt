// A test that is put many questions about one board and its rows, which are prepared once.
ghost use Rattle.table.specs.Ranks.{higher_ranked};
ghost use Rattle.table.specs.Sets.{members};
ghost use Rattle.std.specs.Prelude.{◌≡◌};

use crate::board::Board;
use crate::row::Row;
use crate::set::TaskSet;
use crate::testing::Test;

#[derive(Drop)]
pub struct Asking<'a, T: Test> {
    test: &'a T,
    board: Board,
    rows: &'a [Row],
    prepared: T::Prepared,
    ghost ready: { T.Test.answers test.now prepared ≡ T.Test.meaning test.now board rows.now },
}

impl<'a, T: Test> Asking<'a, T> {
    pub fn new(test: &'a T, board: &Board, rows: &'a [Row]) -> Asking<'a, T>
        ensures test { result.test.now ≡ test.now }
        ensures board { result.board ≡ board.now }
        ensures rows { result.rows.now ≡ rows.now }
    {
        Asking {
            test,
            board: *board,
            rows,
            prepared: test.prepare(board, rows),
        }
    }

    // The rows that it is asked about.
    pub fn rows(&self) -> &'a [Row]
        ensures answer { result.now ≡ self.now.rows.now }
    {
        self.rows
    }

    // The bound of a task with some tasks above it.
    pub fn ask(&self, number: usize, above: &TaskSet) -> Option<u32>
        ensures answer { result ≡ T.Test.meaning self.now.test.now self.now.board self.now.rows.now number (members above.now) }
    {
        self.test.ask(&self.prepared, number, above)
    }

    // The bound of a task under the present ranks.
    pub fn ask_ranked(&self, number: usize) -> Option<u32>
        ensures answer { result ≡ T.Test.meaning self.now.test.now self.now.board self.now.rows.now number (higher_ranked self.now.rows.now number) }
    {
        self.ask(number, &TaskSet::higher_ranked(self.rows, number))
    }
}
