// The composable test: contention is all that the own core can suffer from each other core,
// whatever tasks are there. It is own-core.
ghost use Rattle.bounds.specs.Bounds.{BoundsLeast, composable_bound};
ghost use Rattle.bounds.specs.Rules.{composable_rule};
ghost use Rattle.table.specs.Sets.{members};
ghost use Rattle.table.specs.Tasks.{listed};
ghost use Rattle.std.specs.Prelude.{◌≡◌, false};
ghost use Rattle.bounds.specs.Tested.{composable_laws};

use crate::prepared::CheckedTable;
use table::board::Board;
use table::row::Row;
use table::set::TaskSet;
use table::testing::Test;

#[derive(Clone, Copy, PartialEq, Eq, Debug)]
pub struct Composable;

impl Test for Composable {
    type Prepared = CheckedTable;

    const WIDE: bool = false;

    ghost WIDE = { false };

    ghost wide = { false };

    ghost meaning = { λ _. composable_bound };

    ghost answers = { λ _ p. composable_bound p.board (listed p.tasks) };

    ghost laws = { λ _. composable_laws };

    fn is_wide(&self) -> bool
        ensures answer { result ≡ false }
        ensures states { result ≡ ⟦<Composable as Test>⟧.WIDE }
    {
        Self::WIDE
    }

    fn prepare(&self, board: &Board, rows: &[Row]) -> CheckedTable {
        CheckedTable::of(board, rows)
    }

    fn ask(&self, prepared: &CheckedTable, number: usize, above: &TaskSet) -> Option<u32> {
        prepared.ask(number, above)
    }

    // As the trait writes it, for what is promised here besides: that it is the least.
    fn bound(&self, board: &Board, rows: &[Row], number: usize, above: &TaskSet) -> Option<u32>
        ensures answer { result ≡ composable_bound board.now rows.now number (members above.now) }
        ensures least { BoundsLeast composable_rule board.now rows.now number (members above.now) result }
    {
        let prepared = self.prepare(board, rows);
        self.ask(&prepared, number, above)
    }
}
