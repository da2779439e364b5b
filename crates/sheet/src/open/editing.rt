// Entering, withdrawing and amending a row. A refused call changes nothing.
ghost use Rattle.std.specs.Prelude.{◌≡◌, ◌<◌, length};
ghost use Rattle.sheet.specs.Editing.{after_amend, after_enter, after_withdraw, amend_answer, amend_refusal, changed, enter_answer, entered, entry_refusal, withdraw_answer, withdraw_refusal};
ghost use Rattle.sheet.specs.State.{Becomes, state_of, unless};
ghost use Rattle.table.specs.Refusals.{done_unless};

use crate::entry::Entry;
use crate::marks::loosen;
use crate::open::OpenSheet;
use crate::ranks::is_rank_free;
use table::refusal::Refusal;
use table::row::{Figures, Row};
use table::tasks::{capacity_of, is_task};

impl OpenSheet<'_> {
    // Whether a row may be entered. What else has to hold of it besides its figures is `fine`.
    fn check_entry(&self, entry: &Entry, fine: bool) -> Result<(), Refusal>
        ensures { result ≡ done_unless (entry_refusal (state_of self.now) entry.now fine) }
    {
        if entry.number >= capacity_of(self.rows) {
            return Err(Refusal::NumberTooLarge);
        }
        if is_task(self.rows, entry.number) {
            return Err(Refusal::NumberOccupied);
        }
        if entry.core >= self.board.cores {
            return Err(Refusal::CoreLacking);
        }
        if !is_rank_free(self.rows, entry.core, entry.rank) {
            return Err(Refusal::RankUnavailable);
        }
        if !(entry.figures.suits(&self.board) & fine) {
            return Err(Refusal::FigureLimits);
        }
        Ok(())
    }

    // Whether a number has a task.
    pub(crate) fn check_task(&self, number: usize) -> Result<(), Refusal>
        ensures { result ≡ done_unless (withdraw_refusal (state_of self.now) number) }
    {
        if number >= capacity_of(self.rows) {
            return Err(Refusal::NumberTooLarge);
        }
        if !is_task(self.rows, number) {
            return Err(Refusal::NumberEmpty);
        }
        Ok(())
    }

    // Whether the figures of a number may be replaced.
    fn check_amendment(&self, number: usize, figures: &Figures) -> Result<(), Refusal>
        ensures { result ≡ done_unless (amend_refusal (state_of self.now) number figures.now) }
    {
        self.check_task(number)?;
        if !figures.suits(&self.board) {
            return Err(Refusal::FigureLimits);
        }
        Ok(())
    }

    // Writes a row, and loosens what a change on the core loosens.
    fn change(&mut self, number: usize, row: Row, core: u8)
        requires { number < length self.old.rows.now }
        ensures { Becomes self.old self.new (changed (state_of self.old) number row core) }
    {
        self.rows[number] = row;
        loosen(&mut self.marks, core);
    }

    // Enters a row unless something refuses it.
    pub(crate) fn put(&mut self, entry: &Entry, fine: bool) -> Result<(), Refusal>
        ensures answer { result ≡ done_unless (entry_refusal (state_of self.old) entry.now fine) }
        ensures after { Becomes self.old self.new (unless (entry_refusal (state_of self.old) entry.now fine) (entered (state_of self.old) entry.now) (state_of self.old)) }
    {
        self.check_entry(entry, fine)?;
        self.change(entry.number, entry.row(), entry.core);
        Ok(())
    }

    // Writes a row where there is none.
    pub fn enter(&mut self, entry: &Entry) -> Result<(), Refusal>
        ensures answer { result ≡ enter_answer (state_of self.old) entry.now }
        ensures after { Becomes self.old self.new (after_enter (state_of self.old) entry.now) }
    {
        self.put(entry, true)
    }

    // Empties a row; its number may be used again.
    pub fn withdraw(&mut self, number: usize) -> Result<(), Refusal>
        ensures answer { result ≡ withdraw_answer (state_of self.old) number }
        ensures after { Becomes self.old self.new (after_withdraw (state_of self.old) number) }
    {
        self.check_task(number)?;
        let old = self.rows[number];
        self.change(number, Row::EMPTY, old.core);
        Ok(())
    }

    // Replaces a row's figures; core and rank stay.
    pub fn amend(&mut self, number: usize, figures: &Figures) -> Result<(), Refusal>
        ensures answer { result ≡ amend_answer (state_of self.old) number figures.now }
        ensures after { Becomes self.old self.new (after_amend (state_of self.old) number figures.now) }
    {
        self.check_amendment(number, figures)?;
        let old = self.rows[number];
        let row = Row {
            figures: *figures,
            ..old
        };
        self.change(number, row, old.core);
        Ok(())
    }
}
