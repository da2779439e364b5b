// Making a board: the only place where its limits are tested.
ghost use Rattle.table.specs.Boards.{MadeBoard};

use crate::board::Board;
use crate::refusal::Refusal;

impl Board {
    pub fn new(cores: u8, resources: u8) -> Result<Board, Refusal>
        ensures answer { MadeBoard cores resources result }
    {
        if (1 <= cores) & (cores <= 8) & (resources <= 4) {
            Ok(Board { cores, resources })
        } else {
            Err(Refusal::BoardLimits)
        }
    }
}
