// Random tables, each question answered twice: by the analyser, and by a naive reckoning that shares
// only its boards and rows. It prints how many questions there were and how many differed.
#![tactic(auto)]

use naive::compare::compare_tables;
use std::io;

const SEED: u64 = 20261117;

const TABLES: u32 = 2000;

fn main(rt: HostRuntime) -> io::Result<()> {
    let compared = compare_tables(SEED, TABLES);
    println!(rt; "tables {TABLES}")?;
    print!(rt; "{compared}")
}
