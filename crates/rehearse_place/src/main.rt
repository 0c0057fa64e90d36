// Rehearses a service of places: records of 24 bytes on standard input, and 24 bytes for each on
// standard output.
// The body is that of rehearse_mag but for the kind: below the programs nothing reads or writes.
#![tactic(auto)]

use kinds::Place;
use std::io;
use std::io::{Read, Write};

fn main(rt: HostRuntime) -> io::Result<()> {
    let mut input = Vec::new(rt.alloc());
    rt.stdin().read_to_end(&mut input)?;
    let output = rehearsal::rehearse_input::<Place>(rt.alloc(), &input)?;
    rt.stdout().write_all(&output)
}
