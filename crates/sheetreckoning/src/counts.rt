// How many calls of each kind were compared, and how often each refusal was met.
use crate::answers::Cause;
use naive::tally::Tally;
use std::{fmt, io};

// The kinds of calls on a sheet.
#[derive(Clone, Copy)]
pub(crate) enum Call {
    Enter,
    Withdraw,
    Amend,
    Load,
    Judge,
    Order,
    Bound,
    Settle,
}

// In the order in which they are shown.
const CALLS: [Call; 8] = [
    Call::Enter,
    Call::Withdraw,
    Call::Amend,
    Call::Load,
    Call::Judge,
    Call::Order,
    Call::Bound,
    Call::Settle,
];

impl fmt::Display for Call {
    fn fmt<W: fmt::Write>(&self, f: &mut fmt::Formatter<W>) -> fmt::Result {
        f.write_str(match self {
            Call::Enter => "enters",
            Call::Withdraw => "withdrawals",
            Call::Amend => "amendments",
            Call::Load => "loads",
            Call::Judge => "judgings",
            Call::Order => "orderings",
            Call::Bound => "sheet bounds",
            Call::Settle => "sheet settlings",
        })
    }
}

#[derive(Clone, Copy)]
pub(crate) struct Counts {
    openings: Tally,
    closings: Tally,
    // By call.
    calls: [Tally; 8],
    // By number.
    refusals: [u64; 15],
}

impl Counts {
    pub(crate) fn new() -> Counts {
        Counts {
            openings: Tally::default(),
            closings: Tally::default(),
            calls: [Tally::default(); 8],
            refusals: [0; 15],
        }
    }

    // An opening over a lent list, which nothing refuses.
    pub(crate) fn note_opening(&mut self, same: bool) {
        self.openings.note(true, same);
    }

    // A closing and the reopening after it, which nothing refuses.
    pub(crate) fn note_closing(&mut self, same: bool) {
        self.closings.note(true, same);
    }

    // A call, why it is refused, if it is, and whether the answers are the same.
    pub(crate) fn note(&mut self, call: Call, cause: Option<Cause>, same: bool) {
        // A settling whose end was not found is not refused.
        let refused = cause.filter(|cause| *cause != Cause::Open);
        if let Some(tally) = self.calls.get_mut(call as usize) {
            tally.note(refused.is_none(), same);
        }
        if let Some(cause) = refused {
            if let Some(count) = self.refusals.get_mut(usize::from(cause.number())) {
                *count = count.saturating_add(1);
            }
        }
    }

    fn show_refusals(&self, rt: &HostRuntime) -> io::Result<()> {
        print!(rt; "refusals")?;
        for (number, count) in self.refusals.iter().enumerate().skip(2) {
            let end = if number < 14 { "," } else { "\n" };
            print!(rt; " {number}: {count}{end}")?;
        }
        Ok(())
    }

    pub(crate) fn show(&self, rt: &HostRuntime) -> io::Result<()> {
        let openings = self.openings;
        let closings = self.closings;
        println!(rt; "openings {openings}")?;
        println!(rt; "closings {closings}")?;
        for (call, tally) in CALLS.iter().zip(self.calls.iter()) {
            println!(rt; "{call} {tally}")?;
        }
        self.show_refusals(rt)
    }
}
