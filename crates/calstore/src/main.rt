// The store behind frames: reads them from standard input and writes one answer a line to standard output.
#![tactic(auto)]

use frames::answer_all;
use std::io;
use std::io::{Read, Write};

fn main(rt: HostRuntime) -> io::Result<()> {
    let mut input = Vec::new(rt.alloc());
    rt.stdin().read_to_end(&mut input)?;
    let mut output = Vec::new(rt.alloc());
    answer_all(&input, &mut output)?;
    rt.stdout().write_all(&output)
}
