// Entering, withdrawing and amending: every fault is looked for, and the first in the order of the
// checks is told.
use crate::answers::Cause;
use crate::model::{Draft, Filed, Model};
use naive::recurrence::Kind;
use table::row::Figures;

fn is_amount(n: u32) -> bool {
    n < 10_000_001
}

// The first of these faults that is there refuses.
pub(crate) fn refused_by(faults: &[(bool, Cause)]) -> Result<(), Cause> {
    match faults.iter().find(|fault| fault.0) {
        Some((_, cause)) => Err(*cause),
        None => Ok(()),
    }
}

impl Model {
    // Whether a sensitivity and a stress fit a resource.
    fn fits_resource(&self, r: usize, suffered: u32, inflicted: u32) -> bool {
        let is_had = r < usize::from(self.board.resources);
        is_amount(suffered) && is_amount(inflicted) && (is_had || (suffered == 0 && inflicted == 0))
    }

    // Every limit, on the board.
    fn fits(&self, figures: &Figures) -> bool {
        let Figures {
            cost,
            period,
            deadline,
            sensitivity,
            stress,
        } = *figures;
        let times = deadline != 0 && is_amount(period) && period >= deadline;
        let by_resource = sensitivity.iter().zip(stress.iter()).enumerate().all(|(
            r,
            (suffered, inflicted),
        )| self.fits_resource(r, *suffered, *inflicted));
        cost != 0 && is_amount(cost) && times && by_resource
    }

    // Whether a core may have a task of a rank, and has none yet.
    fn is_free(&self, core: u8, rank: u8) -> bool {
        (1..=64).contains(&rank) && self.holder(core, rank).is_none()
    }

    // What speaks against filing a draft.
    fn check_entry(&self, draft: &Draft) -> Result<(), Cause> {
        let Filed {
            core,
            rank,
            figures,
        } = draft.filed;
        refused_by(&[
            (draft.number >= self.capacity, Cause::NumberTooLarge),
            (self.slot(draft.number).is_some(), Cause::NumberOccupied),
            (core >= self.board.cores, Cause::CoreLacking),
            (!self.is_free(core, rank), Cause::RankUnavailable),
            (
                draft.fourth != 0 || !self.fits(&figures),
                Cause::FigureLimits,
            ),
        ])
    }

    // The task of a number, or what speaks against naming it as a task's.
    pub(crate) fn named(&self, number: usize) -> Result<Filed, Cause> {
        if number >= self.capacity {
            return Err(Cause::NumberTooLarge);
        }
        self.slot(number).ok_or(Cause::NumberEmpty)
    }

    // Fills or clears a slot. A core stands no longer if it is the one that changed, or if its test
    // looks at all cores.
    fn change(&mut self, number: usize, slot: Option<Filed>, core: u8) {
        if let Some(place) = self.slots.get_mut(number) {
            *place = slot;
        }
        for (k, stand) in self.stands.iter_mut().enumerate() {
            if *stand == Some(Kind::Deadline) || k == usize::from(core) {
                *stand = None;
            }
        }
    }

    pub(crate) fn enter(&mut self, draft: &Draft) -> Result<(), Cause> {
        self.check_entry(draft)?;
        self.change(draft.number, Some(draft.filed), draft.filed.core);
        Ok(())
    }

    pub(crate) fn withdraw(&mut self, number: usize) -> Result<(), Cause> {
        let old = self.named(number)?;
        self.change(number, None, old.core);
        Ok(())
    }

    pub(crate) fn amend(&mut self, number: usize, figures: &Figures) -> Result<(), Cause> {
        let old = self.named(number)?;
        if !self.fits(figures) {
            return Err(Cause::FigureLimits);
        }
        let filed = Filed {
            figures: *figures,
            ..old
        };
        self.change(number, Some(filed), old.core);
        Ok(())
    }
}
