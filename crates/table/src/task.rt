// A task: a core, and figures that are known to keep their limits.
ghost use Rattle.table.specs.Limits.{in_limits};
ghost use Rattle.std.specs.Prelude.{◌≡◌, true};

use crate::row::Figures;

mod making;

#[derive(Clone, Copy, PartialEq, Eq, Debug)]
pub struct Task {
    pub core: u8,
    pub figures: Figures,
    ghost limits: { in_limits figures ≡ true },
}
