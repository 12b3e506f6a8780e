// The act program: a notice and a session come from standard input, and the refusals and the act go to standard output.
#![tactic(auto)]

use cabinet::whole::print;
use std::io;
use std::io::{Read, Write};

// A space of this size is never too short.
const MOST_SPACE: usize = 696_396;

fn main(rt: HostRuntime) -> io::Result<()> {
    let mut input: Vec<u8> = Vec::new(rt.alloc());
    rt.stdin().take(65_536).read_to_end(&mut input)?;
    let mut space = vec![in rt.alloc(); 0u8; MOST_SPACE]?;
    // (A match: with `map_err` and `?` the check runs out of its stack.)
    match print(input.as_slice(), space.as_mut_slice()) {
        Ok(count) => rt.stdout().write_all(&space[0..count]),
        Err(_) => Err(io::Error::from(io::ErrorKind::OutOfMemory)),
    }
}
