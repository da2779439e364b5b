// Why a request is refused.
ghost use Rattle.table.specs.Refusals.{number_of};
ghost use Rattle.std.specs.Prelude.{◌≡◌, Some, decimal};

use std::fmt;

#[derive(Clone, Copy, PartialEq, Eq, Debug)]
pub enum Refusal {
    // A board outside its limits.
    BoardLimits = 1,
    // A file of no length that a file can have.
    FileLength = 2,
    // A block whose stored check is not that of its bytes.
    BlockCheck = 3,
    // A block that does not bear its own number.
    BlockNumber = 4,
    // A block that is laid out wrongly, or made for another board.
    BlockLayout = 5,
    // A figure outside its limits.
    FigureLimits = 6,
    // A number that is not below the capacity.
    NumberTooLarge = 7,
    // A number that already has a task.
    NumberOccupied = 8,
    // A number that has no task.
    NumberEmpty = 9,
    // A core that the board lacks.
    CoreLacking = 10,
    // A rank outside 1 to 64, or one that another task of the core has.
    RankUnavailable = 11,
    // A core whose tasks no order lets pass.
    NoOrder = 12,
    // A task without a bound.
    NoBound = 13,
    // A buffer that is too short for what is to be written.
    BufferTooShort = 14,
}

impl Refusal {
    // The number by which people and programs name it.
    pub fn number(self) -> u8
        ensures answer { result ≡ number_of self }
    {
        self as u8
    }
}

// It is told by its number.
impl fmt::Display for Refusal {
    ghost output = { λ refusal. Some (decimal (number_of refusal)) };

    fn fmt<W: fmt::Write>(&self, f: &mut fmt::Formatter<W>) -> fmt::Result {
        let number = self.number();
        write!(f, "{number}")
    }
}
