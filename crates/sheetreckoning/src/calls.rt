// Calls on a sheet and on its model, side by side.
use crate::answers::{Answer, Cause, Refused, as_answer};
use crate::counts::{Call, Counts};
use crate::drafts::Habit;
use crate::model::Model;
use crate::{alike, drafts, making};
use bounds::composable::Composable;
use bounds::deadline::Deadline;
use naive::random::Random;
use naive::recurrence::Kind;
use sheet::entry::Entry;
use sheet::open::OpenSheet;
use table::row::Row;
use table::testing::Test;

// Enters become withdrawals where the sheet is crowded.
fn draw_call(random: &mut Random, crowded: bool) -> Call {
    match random.below(100) {
        0..=29 => if crowded { Call::Withdraw } else { Call::Enter },
        30..=34 => Call::Withdraw,
        35..=44 => Call::Amend,
        45..=54 => Call::Load,
        55..=67 => Call::Judge,
        68..=80 => Call::Order,
        81..=90 => Call::Bound,
        _ => Call::Settle,
    }
}

// A sheet beside its model, and the list that was lent for it, as it was before.
#[derive(Drop)]
pub(crate) struct Beside<'a> {
    pub(crate) sheet: OpenSheet<'a>,
    pub(crate) model: Model,
    pub(crate) lent: &'a [Row],
    pub(crate) habit: Habit,
}

// Each call is made on both, and both answers are told.
impl Beside<'_> {
    // Whether the sheet is as the model says.
    pub(crate) fn agrees(&self) -> bool {
        alike::same_rows(self.sheet.rows(), &self.model, self.lent)
            && alike::same_marks(&self.sheet.marks(), &self.model)
    }

    fn enter(&mut self, random: &mut Random) -> (Answer, Answer) {
        let draft = drafts::draw_draft(random, &self.model, &self.habit);
        let entry = Entry {
            number: draft.number,
            core: draft.filed.core,
            rank: draft.filed.rank,
            figures: draft.filed.figures,
        };
        (
            as_answer(self.sheet.enter(&entry)),
            as_answer(self.model.enter(&draft)),
        )
    }

    fn withdraw(&mut self, random: &mut Random) -> (Answer, Answer) {
        let number = drafts::draw_number(random, &self.model, true);
        (
            as_answer(self.sheet.withdraw(number)),
            as_answer(self.model.withdraw(number)),
        )
    }

    fn amend(&mut self, random: &mut Random) -> (Answer, Answer) {
        let number = drafts::draw_number(random, &self.model, true);
        let figures = drafts::draw_figures(random, &self.habit, self.model.board.resources);
        (
            as_answer(self.sheet.amend(number, &figures)),
            as_answer(self.model.amend(number, &figures)),
        )
    }

    fn load(&mut self, random: &mut Random) -> (Answer, Answer) {
        let file = making::draw_file(random, &self.model, &self.habit);
        (
            as_answer(self.sheet.load(&file)),
            as_answer(self.model.load(&file)),
        )
    }

    // A match in each call that takes a test: the tests are two types, and `dyn` has no room for what
    // each prepares.
    fn judge(&mut self, random: &mut Random) -> (Answer, Answer) {
        let core = drafts::draw_core(random, &self.model);
        let kind = drafts::draw_kind(random);
        let answer = match kind {
            Kind::Deadline => self.sheet.judge(core, &Deadline),
            Kind::Composable => self.sheet.judge(core, &Composable),
        };
        (as_answer(answer), as_answer(self.model.judge(core, kind)))
    }

    fn order(&mut self, random: &mut Random) -> (Answer, Answer) {
        let core = drafts::draw_core(random, &self.model);
        let kind = drafts::draw_kind(random);
        let answer = match kind {
            Kind::Deadline => self.sheet.order(core, &Deadline),
            Kind::Composable => self.sheet.order(core, &Composable),
        };
        (as_answer(answer), as_answer(self.model.order(core, kind)))
    }

    fn bound(&self, random: &mut Random) -> (Answer, Answer) {
        let number = drafts::draw_number(random, &self.model, true);
        let kind = drafts::draw_kind(random);
        let answer = match kind {
            Kind::Deadline => self.sheet.bound(number, &Deadline),
            Kind::Composable => self.sheet.bound(number, &Composable),
        };
        (as_answer(answer), as_answer(self.model.bound(number, kind)))
    }

    // The buffers are compared too: where they differ, the second answer becomes one that no sheet
    // gives.
    fn settle(&self, random: &mut Random) -> (Answer, Answer) {
        let room = if random.one_in(3) {
            random.below(80) as usize
        } else {
            self.model.capacity.saturating_add(random.below(3) as usize)
        };
        let room = room.min(80);
        let filling = random.below(1000);
        let mut times = [filling; 80];
        let mut expected = [filling; 80];
        let answer = as_answer(self.sheet.settle(&mut times[..room]));
        let answer_too = as_answer(self.model.settle(&mut expected[..room]));
        if times == expected {
            (answer, answer_too)
        } else {
            (answer, Err(Refused::from(Cause::Open)))
        }
    }

    // One random call, and whether the sheet and its model still agree.
    pub(crate) fn one_call(&mut self, counts: &mut Counts, random: &mut Random) {
        let crowded = self.model.count() > self.habit.crowd;
        let call = draw_call(random, crowded);
        let (answer, expected) = match call {
            Call::Enter => self.enter(random),
            Call::Withdraw => self.withdraw(random),
            Call::Amend => self.amend(random),
            Call::Load => self.load(random),
            Call::Judge => self.judge(random),
            Call::Order => self.order(random),
            Call::Bound => self.bound(random),
            Call::Settle => self.settle(random),
        };
        let same = answer == expected && self.agrees();
        counts.note(call, expected.err().map(|refused| refused.cause), same);
    }

    // The sheet closed and opened again.
    pub(crate) fn reopened(self) -> Self {
        let Beside {
            sheet,
            model,
            lent,
            habit,
        } = self;
        Beside {
            sheet: sheet.close().reopen(),
            model,
            lent,
            habit,
        }
    }
}
