// A board: 1 to 8 cores, and 0 to 4 resources that they share.
ghost use Rattle.std.specs.Prelude.{◌≤◌};

mod making;

#[derive(Clone, Copy, PartialEq, Eq, Debug)]
pub struct Board {
    pub cores: u8,
    pub resources: u8,
    ghost some_core: { 1 ≤ cores },
    ghost few_cores: { cores ≤ 8 },
    ghost few_resources: { resources ≤ 4 },
}
