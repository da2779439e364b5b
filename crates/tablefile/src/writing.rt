// Writing the file of a row list: its tasks by rising number, ten to a block.
ghost use Rattle.std.specs.Prelude.{◌≡◌, ◌≤◌, length};
ghost use Rattle.tablefile.specs.Layout.{blocks_for};
ghost use Rattle.tablefile.specs.Writing.{ComesBack, buffer_after, write_answer};

use crate::blocks::block_bytes;
use crate::gathering::gather;
use crate::parts::part_of;
use table::board::Board;
use table::refusal::Refusal;
use table::row::Row;

// The blocks for this many records.
fn blocks_needed(count: usize) -> usize
    requires { count ≤ 64 }
    ensures answer { result ≡ blocks_for count }
    ensures few { result ≤ 7 }
{
    count.div_ceil(10).max(1)
}

// Writes the file of the tasks at the front of a buffer, and tells how many bytes it has. What is
// behind it is left; a buffer that is too short is left whole.
pub fn write_file(board: &Board, rows: &[Row], out: &mut [u8]) -> Result<usize, Refusal>
    ensures answer { result ≡ write_answer board.now rows.now (length out.old) }
    ensures buffer { out.new ≡ buffer_after board.now rows.now out.old }
    ensures reads_back { ComesBack board.now rows.now result out.new }
{
    let found = gather(rows);
    let blocks = blocks_needed(found.len());
    if out.len() < 512 * blocks {
        return Err(Refusal::BufferTooShort);
    }
    // By places, as in `record_bytes`.
    for k in 0..blocks {
        let chosen = part_of(&found, 10 * k, 10);
        let block = block_bytes(board, k as u8, rows, chosen);
        out[512 * k..512 * (k + 1)].copy_from_slice(&block);
    }
    Ok(512 * blocks)
}
