// Parts of a byte list.
ghost use Rattle.std.specs.Prelude.{◌≡◌};
ghost use Rattle.tablefile.specs.Parts.{part};

// At most `n` bytes from a place on; fewer where the bytes end first.
pub(crate) fn part_of(bytes: &[u8], from: usize, n: usize) -> &[u8]
    ensures { result.now ≡ part bytes.now from n }
{
    let rest = &bytes[from.min(bytes.len())..];
    &rest[..n.min(rest.len())]
}
