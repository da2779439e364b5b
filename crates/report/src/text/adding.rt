// Text made, added to, read and copied.
ghost use Rattle.std.specs.Prelude.{◌≡◌, ◌+◌, ◌≤◌, [], ◌++◌, length, decimal};
ghost use Rattle.report.specs.Texts.{copied, copy_answer, shown};

use crate::text::Text;
use shortlist::ShortList;
use table::refusal::Refusal;

impl Text {
    pub(crate) fn new() -> Text
        ensures shows { shown result ≡ [] }
    {
        Text {
            bytes: ShortList::new(),
        }
    }

    // Its bytes.
    pub fn as_bytes(&self) -> &[u8]
        ensures answer { result.now ≡ shown self.now }
    {
        self.bytes.as_slice()
    }

    // Copies it to the front of a buffer, and tells how many bytes it has. What is behind is left; a
    // buffer that is too short is left whole.
    pub(crate) fn copy_to(&self, out: &mut [u8]) -> Result<usize, Refusal>
        ensures answer { result ≡ copy_answer (shown self.now) (length out.old) }
        ensures buffer { out.new ≡ copied (shown self.now) out.old }
    {
        let text = self.as_bytes();
        if out.len() < text.len() {
            return Err(Refusal::BufferTooShort);
        }
        out[0..text.len()].copy_from_slice(text);
        Ok(text.len())
    }

    pub(crate) fn push_bytes(&mut self, bytes: &[u8])
        requires { length (shown self.old) + length bytes.now ≤ 8192 }
        ensures shows { shown self.new ≡ shown self.old ++ bytes.now }
        ensures long { length (shown self.new) ≡ length (shown self.old) + length bytes.now }
    {
        self.bytes.push_all(bytes);
    }

    // A number in decimal: at most twenty digits.
    pub(crate) fn push_decimal(&mut self, n: u64)
        requires { length (shown self.old) + 20 ≤ 8192 }
        ensures shows { shown self.new ≡ shown self.old ++ decimal n }
        ensures near { length (shown self.new) ≤ length (shown self.old) + 20 }
    {
        if n >= 10 {
            self.push_decimal(n / 10);
        }
        self.bytes.push(b'0' + (n % 10) as u8);
    }
}
