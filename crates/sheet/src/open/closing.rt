// Closing a sheet.
ghost use Rattle.sheet.specs.State.{IsLentAs, closed_state, state_of};
ghost use Rattle.std.specs.Prelude.{◌≡◌};

use crate::closed::ClosedSheet;
use crate::open::OpenSheet;

impl<'a> OpenSheet<'a> {
    // Closes the sheet, with rows and marks as they are.
    pub fn close(self) -> ClosedSheet<'a>
        ensures after { closed_state result ≡ state_of self.entry }
        ensures lent { IsLentAs self.entry result.sheet }
    {
        ClosedSheet { sheet: self }
    }
}
