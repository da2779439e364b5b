// What an ordering of a core came to.
use ordering::order::{Found, NoOrder};
use std::fmt;

// The order found, and the ranks that it gives.
#[derive(Clone, Copy)]
pub(crate) struct FoundTold<'a>(pub(crate) &'a Found);

impl fmt::Display for FoundTold<'_> {
    fn fmt<W: fmt::Write>(&self, f: &mut fmt::Formatter<W>) -> fmt::Result {
        let Found { order, trials } = self.0;
        let numbers = order.numbers.as_slice();
        write!(f, "  found in {trials} trials, from the lowest place up:")?;
        for (number, rank) in numbers.iter().zip((1..=numbers.len()).rev()) {
            write!(f, "\n  task {number} gets rank {rank}")?;
        }
        Ok(())
    }
}

#[derive(Clone, Copy)]
pub(crate) struct NoneTold(pub(crate) NoOrder);

impl fmt::Display for NoneTold {
    fn fmt<W: fmt::Write>(&self, f: &mut fmt::Formatter<W>) -> fmt::Result {
        let NoOrder { trials, unplaced } = self.0;
        write!(
            f,
            "  no order passes: {trials} trials, {unplaced} tasks unplaced"
        )
    }
}
