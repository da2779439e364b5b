// The lines of a report. Each function says how many bytes it adds at most, so that the text never
// ends too soon.
ghost use Rattle.std.specs.Prelude.{◌≡◌, ◌+◌, ◌≤◌, ◌++◌, length};
ghost use Rattle.report.specs.Lines.{bound_word, core_line, head_line, refused_line, standing_word, task_line};
ghost use Rattle.report.specs.Texts.{shown};

use crate::text::Text;
use table::board::Board;
use table::row::Row;

pub(crate) fn push_head(text: &mut Text, board: &Board)
    requires { length (shown text.old) + 60 ≤ 8192 }
    ensures shows { shown text.new ≡ shown text.old ++ head_line board.now }
    ensures near { length (shown text.new) ≤ length (shown text.old) + 60 }
{
    text.push_bytes(b"cores ");
    text.push_decimal(u64::from(board.cores));
    text.push_bytes(b" shared ");
    text.push_decimal(u64::from(board.resources));
    text.push_bytes(b"\n");
}

fn word_of(standing: bool) -> &'static [u8]
    ensures answer { result.now ≡ standing_word standing }
    ensures short { length result.now ≤ 8 }
{
    if standing { b"standing" } else { b"loose" }
}

pub(crate) fn push_core(text: &mut Text, core: u8, standing: bool)
    requires { length (shown text.old) + 40 ≤ 8192 }
    ensures shows { shown text.new ≡ shown text.old ++ core_line core standing }
    ensures near { length (shown text.new) ≤ length (shown text.old) + 40 }
{
    text.push_bytes(b"core ");
    text.push_decimal(u64::from(core));
    text.push_bytes(b" ");
    text.push_bytes(word_of(standing));
    text.push_bytes(b"\n");
}

fn push_bound(text: &mut Text, bound: Option<u32>)
    requires { length (shown text.old) + 20 ≤ 8192 }
    ensures shows { shown text.new ≡ shown text.old ++ bound_word bound }
    ensures near { length (shown text.new) ≤ length (shown text.old) + 20 }
{
    match bound {
        Some(time) => text.push_decimal(u64::from(time)),
        None => text.push_bytes(b"none"),
    }
}

pub(crate) fn push_task(text: &mut Text, number: u8, row: &Row, bound: Option<u32>)
    requires { length (shown text.old) + 84 ≤ 8192 }
    ensures shows { shown text.new ≡ shown text.old ++ task_line number row.now bound }
    ensures near { length (shown text.new) ≤ length (shown text.old) + 84 }
{
    text.push_decimal(u64::from(number));
    text.push_bytes(b" ");
    text.push_decimal(u64::from(row.core));
    text.push_bytes(b" ");
    text.push_decimal(u64::from(row.rank));
    text.push_bytes(b" ");
    push_bound(text, bound);
    text.push_bytes(b"\n");
}

pub(crate) fn push_refused(text: &mut Text, number: u8, entered: u64)
    requires { length (shown text.old) + 60 ≤ 8192 }
    ensures { shown text.new ≡ shown text.old ++ refused_line number entered }
{
    text.push_bytes(b"refused ");
    text.push_decimal(u64::from(number));
    text.push_bytes(b" entered ");
    text.push_decimal(entered);
    text.push_bytes(b"\n");
}
