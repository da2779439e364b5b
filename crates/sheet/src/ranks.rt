// Whether a rank is free on a core.
ghost use Rattle.sheet.specs.Editing.{rank_free, rank_holder};
ghost use Rattle.table.specs.Sets.{members};
ghost use Rattle.std.specs.Prelude.{◌≡◌};

use table::ranks::rank_at;
use table::row::Row;
use table::set::TaskSet;
use table::tasks::NUMBERS;

// The first of some tasks that has the rank.
fn find_holder(rows: &[Row], tasks: &TaskSet, rank: u8) -> Option<usize>
    ensures { result ≡ rank_holder rows.now (members tasks.now) rank }
{
    (0..NUMBERS).find(|number| tasks.has(*number) & (rank_at(rows, *number) == rank))
}

// From 1 to 64, and no task of the core has it.
pub(crate) fn is_rank_free(rows: &[Row], core: u8, rank: u8) -> bool
    ensures { result ≡ rank_free rows.now core rank }
{
    let tasks = TaskSet::of_core(rows, core);
    (1 <= rank) & (rank <= 64) & find_holder(rows, &tasks, rank).is_none()
}
