// The numbers of the tasks that a file is written of.
ghost use Rattle.std.specs.Prelude.{◌≡◌};
ghost use Rattle.tablefile.specs.Numbers.{numbers};

use arrayvec::ArrayVec;
use table::row::Row;
use table::tasks::{NUMBERS, is_task};

// The numbers of the tasks, rising. They are pushed, as a `collect` answers a `Result`.
#[tactic(auto, using(crate::proofs::Numbered::gathered), unfolding(crate::specs::Numbers::numbers))]
pub(crate) fn gather(rows: &[Row]) -> ArrayVec<u8, 64>
    ensures { result.items ≡ numbers rows.now }
{
    let mut found = ArrayVec::new();
    for number in 0..NUMBERS {
        if is_task(rows, number) {
            found.push(number as u8);
        }
    }
    found
}
