// Divides a balance among demands by a sharing rule, and shows how: share RULE BALANCE DEMAND..
#![tactic(auto)]

mod complaint;
mod division;
mod report;

use complaint::Complaint;
use report::run;
use std::{env, io};

fn main(rt: HostRuntime) -> io::Result<()> {
    let words: Vec<String> = env::args(&rt)?.skip(1).collect(rt.alloc())?;
    match run(rt.alloc(), words.as_slice()) {
        Ok(text) => rt.print(text),
        Err(complaint) => {
            eprintln!(rt; "share: {complaint}")?;
            Err(io::Error::from(io::ErrorKind::InvalidInput))
        }
    }
}
