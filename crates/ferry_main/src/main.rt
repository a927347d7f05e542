// The program (01, "Program"): standard input to one line on standard output. What it does is in `ferry::program`.
#![tactic(auto)]

use inout::read_full;
use std::io::{self, Input, Write};

// One word more than a stream may have, so that a longer input shows.
const SPACE: usize = 65_544;

fn main(rt: HostRuntime) -> io::Result<()> {
    let mut input = [0u8; SPACE];
    let got = read_full(&mut rt.reader(), &mut input)?;
    let line = ferry::program::run(&input[..got]);
    io::writer(&rt).write_all(line.as_bytes())
}
