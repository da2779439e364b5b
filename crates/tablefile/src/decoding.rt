// A record's bytes as a number, the byte after the rank, and a row.
ghost use Rattle.std.specs.Prelude.{◌≡◌, ◌+◌, ◌≤◌, length};
ghost use Rattle.tablefile.specs.Layout.{record_bytes};
ghost use Rattle.tablefile.specs.Reading.{four_at, number_at, record_of, spelled_record};

use crate::records::Record;
use table::row::{Figures, Row};

// The number that four bytes from a place on spell.
fn number_at(bytes: &[u8; 48], at: usize) -> u32
    requires { at + 4 ≤ 48 }
    ensures { result ≡ number_at bytes.now at }
{
    u32::from_be_bytes([bytes[at], bytes[at + 1], bytes[at + 2], bytes[at + 3]])
}

// The four numbers from a place on.
fn four_at(bytes: &[u8; 48], at: usize) -> [u32; 4]
    requires { at + 16 ≤ 48 }
    ensures { result ≡ four_at bytes.now at }
{
    [
        number_at(bytes, at),
        number_at(bytes, at + 4),
        number_at(bytes, at + 8),
        number_at(bytes, at + 12),
    ]
}

fn spelled_record(bytes: &[u8; 48]) -> Record
    ensures { result ≡ spelled_record bytes.now }
{
    let [number, core, rank, fourth, ..] = *bytes;
    let figures = Figures {
        cost: number_at(bytes, 4),
        period: number_at(bytes, 8),
        deadline: number_at(bytes, 12),
        sensitivity: four_at(bytes, 16),
        stress: four_at(bytes, 32),
    };
    let row = Row {
        used: true,
        core,
        rank,
        figures,
    };
    Record {
        number,
        fourth,
        row,
    }
}

// The record that 48 bytes spell; bytes of another length spell an empty one.
#[tactic(auto, unfolding(crate::specs::Reading::record_of))]
pub fn decode(bytes: &[u8]) -> Record
    ensures answer { result ≡ record_of bytes.now }
    ensures nothing_lost { length bytes.now ≡ 48 → record_bytes result ≡ bytes.now }
{
    match bytes.as_array::<48>() {
        Some(bytes) => spelled_record(bytes),
        None => Record {
            number: 0,
            fourth: 0,
            row: Row::EMPTY,
        },
    }
}
