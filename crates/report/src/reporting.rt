// The report of a closed sheet.
ghost use Rattle.report.specs.Report.{report_text};
ghost use Rattle.report.specs.Texts.{copied, copy_answer};
ghost use Rattle.sheet.specs.State.{closed_state};
ghost use Rattle.std.specs.Prelude.{◌≡◌, length};

use crate::composing::compose;
use sheet::closed::ClosedSheet;
use table::refusal::Refusal;
use table::testing::Test;

// Writes the report of a closed sheet for a test at the front of a buffer, and tells how many bytes
// it has. What is behind is left; a buffer that is too short is left whole.
pub fn report<T: Test>(sheet: &ClosedSheet<'_>, test: &T, out: &mut [u8]) -> Result<usize, Refusal>
    ensures answer { result ≡ copy_answer (report_text (T.Test.meaning test.now) (closed_state sheet.now)) (length out.old) }
    ensures buffer { out.new ≡ copied (report_text (T.Test.meaning test.now) (closed_state sheet.now)) out.old }
{
    compose(&sheet.board(), sheet.rows(), &sheet.marks(), test).copy_to(out)
}
