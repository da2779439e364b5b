// Random tables and random sheets, each question answered twice: by the analyser, and by a naive
// reckoning that shares only its boards and rows. It prints how many questions there were and how
// many differed.
#![tactic(auto)]

use counts::Counts;
use naive::compare::compare_tables;
use naive::random::Random;
use std::io;

// The sheet a second time.
mod model;
// What a call on a sheet answers.
mod answers;
// Random calls on a sheet.
mod drafts;
// Random files to load.
mod making;
// Damage to a file.
mod damage;
// Whether a sheet is as its model says.
mod alike;
// Calls, both ways.
mod calls;
// Random sheets, each under a list of calls.
mod sheets;
// How many calls there were, and how often each refusal was met.
mod counts;

const TABLES: u32 = 2000;

const SHEETS: u32 = 1000;

// Tables: bounds, orders, settlings and files.
fn try_tables(rt: &HostRuntime) -> io::Result<()> {
    let compared = compare_tables(20261117, TABLES);
    println!(rt; "tables {TABLES}")?;
    print!(rt; "{compared}")
}

// Sheets: every call.
fn try_sheets(rt: &HostRuntime) -> io::Result<()> {
    let mut random = Random::new(20261118);
    let mut counts = Counts::new();
    for _ in 0..SHEETS {
        sheets::one_sheet(&mut counts, &mut random);
    }
    println!(rt; "sheets {SHEETS}")?;
    counts.show(rt)
}

fn main(rt: HostRuntime) -> io::Result<()> {
    try_tables(&rt)?;
    try_sheets(&rt)
}
