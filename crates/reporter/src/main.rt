// Reads a table file from standard input and writes its report, or the one line of a refusal, to
// standard output.
#![tactic(auto)]

use report::analysing::analyse;
use std::io;
use std::io::{Read, Write};

fn main(rt: HostRuntime) -> io::Result<()> {
    let mut file = Vec::new(rt.alloc());
    rt.stdin().read_to_end(&mut file)?;
    let text = analyse(file.as_slice());
    rt.stdout().write_all(text.as_bytes())
}
