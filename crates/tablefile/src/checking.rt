// The checks that a file has to pass: of its length, then of each block.
ghost use Rattle.table.specs.Refusals.{done_unless};
ghost use Rattle.tablefile.specs.Parts.{all_zero};
ghost use Rattle.tablefile.specs.Refusing.{bears_number, block_refusal, check_stands, header_fits, length_refusal};
ghost use Rattle.std.specs.Prelude.{◌≡◌};

use crate::check::reckon_check;
use table::board::Board;
use table::refusal::Refusal;

fn is_zero(bytes: &[u8]) -> bool
    ensures { result ≡ all_zero bytes.now }
{
    bytes.iter().all(|b| *b == 0)
}

fn has_check(block: &[u8; 512]) -> bool
    ensures { result ≡ check_stands block.now }
{
    let [.., high, low] = block;
    u16::from_be_bytes([*high, *low]) == reckon_check(&block[..510])
}

fn has_number(block: &[u8; 512], number: u8) -> bool
    ensures { result ≡ bears_number number block.now }
{
    let [high, low, ..] = block;
    u16::from_be_bytes([*high, *low]) == u16::from(number)
}

fn has_header(board: &Board, block: &[u8; 512]) -> bool
    ensures { result ≡ header_fits board.now block.now }
{
    matches!(
        block,
        [_, _, 0..=10, cores, resources, 0, 0, 0, ..]
            if *cores == board.cores && *resources == board.resources
    )
}

// Whether a file may have this length.
pub fn check_length(length: usize) -> Result<(), Refusal>
    ensures answer { result ≡ done_unless (length_refusal «length») }
{
    if (1..=32768).contains(&length) && length.is_multiple_of(512) {
        Ok(())
    } else {
        Err(Refusal::FileLength)
    }
}

// The first refusal that applies to the bytes of a block, made for a board and standing at a place
// of a file.
#[tactic(auto, unfolding(crate::specs::Refusing::block_refusal))]
pub fn check_block(board: &Board, number: u8, bytes: &[u8]) -> Result<(), Refusal>
    ensures answer { result ≡ done_unless (block_refusal board.now number bytes.now) }
{
    let Some(block) = bytes.as_array::<512>() else {
        return Err(Refusal::FileLength);
    };
    if !has_check(block) {
        return Err(Refusal::BlockCheck);
    }
    if !has_number(block, number) {
        return Err(Refusal::BlockNumber);
    }
    if !has_header(board, block) {
        return Err(Refusal::BlockLayout);
    }
    let from = 8 + 48 * block[2] as usize;
    if !is_zero(&block[from..510]) {
        return Err(Refusal::BlockLayout);
    }
    Ok(())
}
