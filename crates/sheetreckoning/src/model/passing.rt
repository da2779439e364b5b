// Judging, ordering, bounds and settling, over the naive recurrences.
use crate::answers::{Cause, Detail, Refused};
use crate::model::{Filed, Model};
use naive::numbers::Numbers;
use naive::recurrence::{Kind, Question};
use naive::rounds::Unsettled;
use naive::{recurrence, rounds};
use std::array;
use table::row::Row;

impl Model {
    // The slots as rows, for the recurrences.
    fn rows(&self) -> [Row; 64] {
        array::from_fn(|number| self.row(number))
    }

    // The bound of a task with some tasks above it.
    fn reckon(&self, kind: Kind, number: usize, above: Numbers) -> Option<u32> {
        let rows = self.rows();
        let question = Question {
            kind,
            board: self.board,
            rows: &rows[..self.capacity],
            number,
            above,
            ahead: recurrence::deadlines(&rows),
        };
        question.bound()
    }

    // The bound of a task under the present ranks.
    fn present(&self, kind: Kind, number: usize) -> Option<u32> {
        self.reckon(kind, number, recurrence::above(&self.rows(), number))
    }

    fn set_stand(&mut self, core: u8, kind: Kind) {
        if let Some(stand) = self.stands.get_mut(usize::from(core)) {
            *stand = Some(kind);
        }
    }

    // From the highest rank to the lowest, until a task has no bound.
    pub(crate) fn judge(&mut self, core: u8, kind: Kind) -> Result<(), Refused> {
        if core >= self.board.cores {
            return Err(Refused::from(Cause::CoreLacking));
        }
        for rank in 1..=64u8 {
            if let Some(number) = self.holder(core, rank) {
                if self.present(kind, number).is_none() {
                    return Err(Refused {
                        cause: Cause::NoBound,
                        detail: Detail::Unbound(number),
                    });
                }
            }
        }
        self.set_stand(core, kind);
        Ok(())
    }

    // The first of the unplaced tasks that has a bound with all the others above it, and how many
    // were tried, which `find` would not tell.
    fn lowest(&self, kind: Kind, unplaced: &Numbers) -> (Option<usize>, u32) {
        let mut tried: u32 = 0;
        for number in 0..64 {
            if unplaced.has(number) {
                tried = tried.saturating_add(1);
                let mut others = *unplaced;
                others.remove(number);
                if self.reckon(kind, number, others).is_some() {
                    return (Some(number), tried);
                }
            }
        }
        (None, tried)
    }

    // Ranks for the tasks that have one in the list.
    fn rank(&mut self, ranks: &[Option<u8>; 64]) {
        for (slot, rank) in self.slots.iter_mut().zip(ranks.iter()) {
            if let (Some(old), Some(rank)) = (*slot, *rank) {
                *slot = Some(Filed { rank, ..old });
            }
        }
    }

    // The ranks, from the largest number down, until all tasks are placed or none can be.
    pub(crate) fn order(&mut self, core: u8, kind: Kind) -> Result<u32, Refused> {
        if core >= self.board.cores {
            return Err(Refused::from(Cause::CoreLacking));
        }
        let mut unplaced = recurrence::tasks_of(&self.rows(), core);
        let mut ranks = [None; 64];
        let mut trials: u32 = 0;
        for rank in (1..=unplaced.count() as u8).rev() {
            let (taker, tried) = self.lowest(kind, &unplaced);
            trials = trials.saturating_add(tried);
            let Some(number) = taker else {
                return Err(Refused {
                    cause: Cause::NoOrder,
                    detail: Detail::Unplaced {
                        trials,
                        unplaced: unplaced.count(),
                    },
                });
            };
            if let Some(place) = ranks.get_mut(number) {
                *place = Some(rank);
            }
            unplaced.remove(number);
        }
        self.rank(&ranks);
        self.set_stand(core, kind);
        Ok(trials)
    }

    pub(crate) fn bound(&self, number: usize, kind: Kind) -> Result<u32, Cause> {
        self.named(number)?;
        self.present(kind, number).ok_or(Cause::NoBound)
    }

    pub(crate) fn settle(&self, times: &mut [u32]) -> Result<u32, Refused> {
        if times.len() < self.capacity {
            return Err(Refused::from(Cause::BufferTooShort));
        }
        let rows = self.rows();
        match rounds::settle(&self.board, &rows[..self.capacity]) {
            Ok(settled) => {
                times[..self.capacity].copy_from_slice(&settled.bounds[..self.capacity]);
                Ok(settled.round)
            }
            Err(Unsettled::Unbounded { task, round }) => Err(Refused {
                cause: Cause::NoBound,
                detail: Detail::Unsettled { task, round },
            }),
            Err(Unsettled::Open) => Err(Refused::from(Cause::Open)),
        }
    }
}
