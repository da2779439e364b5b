// Bytes as hexadecimal digits, sixteen bytes to a line.
ghost use Rattle.telling.specs.Hex.{byte_text, bytes_text, line_text};
ghost use Rattle.std.specs.Prelude.{Some};

use std::fmt;

#[derive(Clone, Copy)]
struct ByteTold(u8);

impl fmt::Display for ByteTold {
    ghost output = { λ told. Some (byte_text told.0) };

    #[tactic(auto, using(std::proofs::lemmas::Fmt::hex_byte), unfolding(crate::specs::Hex::byte_text))]
    fn fmt<W: fmt::Write>(&self, f: &mut fmt::Formatter<W>) -> fmt::Result {
        let byte = self.0;
        write!(f, " {byte:02x}")
    }
}

#[derive(Clone, Copy)]
struct LineTold<'a>(&'a [u8]);

impl fmt::Display for LineTold<'_> {
    ghost output = { λ told. Some (line_text told.0.now) };

    fn fmt<W: fmt::Write>(&self, f: &mut fmt::Formatter<W>) -> fmt::Result {
        f.write_str(" ")?;
        for byte in self.0 {
            write!(f, "{}", ByteTold(*byte))?;
        }
        Ok(())
    }
}

#[derive(Clone, Copy)]
pub(crate) struct BytesTold<'a>(pub(crate) &'a [u8]);

impl fmt::Display for BytesTold<'_> {
    ghost output = { λ told. Some (bytes_text told.0.now) };

    fn fmt<W: fmt::Write>(&self, f: &mut fmt::Formatter<W>) -> fmt::Result {
        for line in self.0.chunks(16) {
            writeln!(f, "{}", LineTold(line))?;
        }
        Ok(())
    }
}
