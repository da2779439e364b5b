// The check of a block: the one place that says how it is reckoned.
ghost use Rattle.tablefile.specs.Check.{check_of};
ghost use Rattle.std.specs.Prelude.{◌≡◌};

// The check of a block's bytes up to the check itself.
pub(crate) fn reckon_check(bytes: &[u8]) -> u16
    ensures { result ≡ check_of bytes.now }
{
    bytes
        .iter()
        .fold(0, |sum: u16, b| sum.wrapping_add(u16::from(*b)))
}
