// The closed sheet: it cannot be edited. To edit it again is to reopen it.
ghost use Rattle.sheet.specs.Saving.{SavesSo};
ghost use Rattle.sheet.specs.State.{IsLentAs, closed_state, state_of};
ghost use Rattle.tablefile.specs.Writing.{buffer_after, write_answer};
ghost use Rattle.std.specs.Prelude.{◌≡◌, length};

use crate::marks::Mark;
use crate::open::OpenSheet;
use table::board::Board;
use table::refusal::Refusal;
use table::row::Row;
use tablefile::writing::write_file;

#[derive(Drop)]
pub struct ClosedSheet<'a> {
    pub(crate) sheet: OpenSheet<'a>,
}

impl<'a> ClosedSheet<'a> {
    // Opens the sheet again, with rows and marks as they are.
    pub fn reopen(self) -> OpenSheet<'a>
        ensures after { state_of result ≡ closed_state self.entry }
        ensures lent { IsLentAs self.entry.sheet result }
    {
        let ClosedSheet { sheet } = self;
        sheet
    }

    // The board that it was opened for.
    pub fn board(&self) -> Board
        ensures answer { result ≡ self.now.sheet.board }
    {
        self.sheet.board
    }

    // The rows as they are.
    pub fn rows(&self) -> &[Row]
        ensures answer { result.now ≡ self.now.sheet.rows.now }
    {
        self.sheet.rows()
    }

    // The marks of the cores, by core.
    pub fn marks(&self) -> [Mark; 8]
        ensures answer { result ≡ self.now.sheet.marks }
    {
        self.sheet.marks()
    }

    // Writes the file of the tasks at the front of a buffer, and tells how many bytes it has. What is
    // behind it is left; a buffer that is too short is left whole.
    pub fn save(&self, out: &mut [u8]) -> Result<usize, Refusal>
        ensures answer { result ≡ write_answer self.now.sheet.board self.now.sheet.rows.now (length out.old) }
        ensures buffer { out.new ≡ buffer_after self.now.sheet.board self.now.sheet.rows.now out.old }
        ensures loads_back { SavesSo self.now.sheet.board self.now.sheet.rows.now result out.new }
    {
        write_file(&self.sheet.board, self.sheet.rows, out)
    }
}
