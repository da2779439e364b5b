// Table files for examples: the worked table written, and what damages and mends one.
ghost use Rattle.figures.specs.Tables.{two_cores, worked_rows};
ghost use Rattle.std.specs.Prelude.{◌≡◌, ◌+◌, ◌++◌, true, length, replicate, slice_set, take};
ghost use Rattle.tablefile.specs.Refusing.{check_stands};
ghost use Rattle.tablefile.specs.Check.{check_of};
ghost use Rattle.tablefile.specs.Writing.{buffer_after};

use figures::{worked_board, worked_rows};
use tablefile::writing::write_file;

pub fn worked_file() -> [u8; 512]
    ensures answer { result ≡ buffer_after two_cores worked_rows (replicate 512 0) }
{
    let mut file = [0; 512];
    let _ = write_file(&worked_board(), &worked_rows(), &mut file);
    file
}

// With one byte replaced; past the end there is none to replace.
pub fn changed(file: [u8; 512], at: usize, byte: u8) -> [u8; 512]
    ensures answer { result ≡ slice_set file at byte }
{
    let mut file = file;
    if at < 512 {
        file[at] = byte;
    }
    file
}

// The check of bytes, reckoned apart from the analyser.
fn sum_of(bytes: &[u8]) -> u16
    ensures { result ≡ check_of bytes.now }
{
    let mut sum: u16 = 0;
    for byte in bytes {
        sum = sum.wrapping_add(u16::from(*byte));
    }
    sum
}

fn mend(block: &mut [u8])
    requires { length block.old ≡ 512 }
    ensures front { take 510 block.new ≡ take 510 block.old }
    ensures stands { check_stands block.new ≡ true }
{
    let (front, check) = block.split_at_mut(510);
    check.copy_from_slice(&sum_of(front).to_be_bytes());
}

// With the check that its bytes now have.
pub fn mended(file: [u8; 512]) -> [u8; 512]
    ensures front { take 510 result ≡ take 510 file }
    ensures stands { check_stands result ≡ true }
{
    let mut file = file;
    mend(&mut file);
    file
}

fn join(first: &[u8], second: &[u8], file: &mut [u8])
    requires { length first.now + length second.now ≡ length file.old }
    ensures { file.new ≡ first.now ++ second.now }
{
    let (front, back) = file.split_at_mut(first.len());
    front.copy_from_slice(first);
    back.copy_from_slice(second);
}

// Two blocks, one after the other.
pub fn joined(first: [u8; 512], second: [u8; 512]) -> [u8; 1024]
    ensures answer { result ≡ first ++ second }
{
    let mut file = [0; 1024];
    join(&first, &second, &mut file);
    file
}
