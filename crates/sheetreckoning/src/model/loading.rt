// Loading a file: each field is reckoned from the place of its bytes in the whole file.
use crate::answers::{Cause, Detail, Part, Refused};
use crate::model::editing::refused_by;
use crate::model::{Draft, Filed, Model};
use table::row::Figures;

// A byte of the file, or 0 past its end.
pub(crate) fn byte(bytes: &[u8], at: usize) -> u8 {
    bytes.get(at).copied().unwrap_or(0)
}

// Two bytes as a number.
fn pair(bytes: &[u8], at: usize) -> u16 {
    u16::from_be_bytes([byte(bytes, at), byte(bytes, at.saturating_add(1))])
}

// Four bytes as a number.
fn word(bytes: &[u8], at: usize) -> u32 {
    u32::from_be_bytes([
        byte(bytes, at),
        byte(bytes, at.saturating_add(1)),
        byte(bytes, at.saturating_add(2)),
        byte(bytes, at.saturating_add(3)),
    ])
}

// Four numbers of four bytes.
fn four(bytes: &[u8], at: usize) -> [u32; 4] {
    [
        word(bytes, at),
        word(bytes, at.saturating_add(4)),
        word(bytes, at.saturating_add(8)),
        word(bytes, at.saturating_add(12)),
    ]
}

// The record that begins at a byte.
fn draft_at(bytes: &[u8], at: usize) -> Draft {
    let figures = Figures {
        cost: word(bytes, at.saturating_add(4)),
        period: word(bytes, at.saturating_add(8)),
        deadline: word(bytes, at.saturating_add(12)),
        sensitivity: four(bytes, at.saturating_add(16)),
        stress: four(bytes, at.saturating_add(32)),
    };
    Draft {
        number: usize::from(byte(bytes, at)),
        fourth: byte(bytes, at.saturating_add(3)),
        filed: Filed {
            core: byte(bytes, at.saturating_add(1)),
            rank: byte(bytes, at.saturating_add(2)),
            figures,
        },
    }
}

// The sum of the bytes of a block before its check.
pub(crate) fn total(bytes: &[u8], start: usize) -> u32 {
    (0..510).fold(0, |sum: u32, k| {
        sum.saturating_add(u32::from(byte(bytes, start.saturating_add(k))))
    })
}

// Whether the check of the block that begins at a byte is that of its bytes.
fn is_sound(bytes: &[u8], start: usize) -> bool {
    u32::from(pair(bytes, start.saturating_add(510))) == total(bytes, start) % 65_536
}

// Whether a byte of a block with so many records has to be zero.
fn is_spare(at: usize, count: u8) -> bool {
    match at {
        5..8 | 488..510 => true,
        8..488 => (at - 8) / 48 >= usize::from(count),
        _ => false,
    }
}

// Which part a refusal of a load belongs to.
// Told again here: the second reckoning shares no rule with the sheet.
fn part_of(cause: Cause) -> Part {
    match cause {
        Cause::FileLength | Cause::BlockCheck | Cause::BlockNumber | Cause::BlockLayout =>
            Part::Block,
        Cause::FigureLimits => Part::Figures,
        _ => Part::Sheet,
    }
}

fn stop(cause: Cause, block: usize, record: usize, entered: usize) -> Refused {
    Refused {
        cause,
        detail: Detail::Stopped {
            part: part_of(cause),
            block,
            record,
            entered,
        },
    }
}

impl Model {
    fn is_laid_out(&self, bytes: &[u8], start: usize) -> bool {
        let count = byte(bytes, start.saturating_add(2));
        count <= 10
            && byte(bytes, start.saturating_add(3)) == self.board.cores
            && byte(bytes, start.saturating_add(4)) == self.board.resources
            && (0..512).all(|at| !is_spare(at, count) || byte(bytes, start.saturating_add(at)) == 0)
    }

    // What speaks against a block.
    fn check_block(&self, bytes: &[u8], start: usize, block: usize) -> Result<(), Cause> {
        refused_by(&[
            (!is_sound(bytes, start), Cause::BlockCheck),
            (usize::from(pair(bytes, start)) != block, Cause::BlockNumber),
            (!self.is_laid_out(bytes, start), Cause::BlockLayout),
        ])
    }

    // Files the records of a block after so many of the blocks before; how many there are then.
    fn load_block(&mut self, bytes: &[u8], block: usize, before: usize) -> Result<usize, Refused> {
        let start = block.saturating_mul(512);
        self.check_block(bytes, start, block)
            .map_err(|cause| stop(cause, block, 0, before))?;
        let mut entered = before;
        for place in 0..byte(bytes, start.saturating_add(2)) {
            let record = usize::from(place);
            let at = start.saturating_add(8 + 48 * record);
            self.enter(&draft_at(bytes, at))
                .map_err(|cause| stop(cause, block, record, entered))?;
            entered = entered.saturating_add(1);
        }
        Ok(entered)
    }

    pub(crate) fn load(&mut self, bytes: &[u8]) -> Result<usize, Refused> {
        let blocks = bytes.len() / 512;
        if blocks == 0 || blocks > 64 || bytes.len() % 512 != 0 {
            return Err(stop(Cause::FileLength, 0, 0, 0));
        }
        let mut entered = 0;
        for block in 0..blocks {
            entered = self.load_block(bytes, block, entered)?;
        }
        Ok(entered)
    }
}
