// Reads a file on standard input and prints what is found of it.
#![tactic(auto)]

use page::print::page;
use std::io;
use std::io::{Read, Write};

// One byte more than a file may have tells that it has too many.
const MOST_READ: u64 = 65537;

fn main(rt: HostRuntime) -> io::Result<()> {
    let mut bytes = Vec::new(rt.alloc());
    rt.stdin().take(MOST_READ).read_to_end(&mut bytes)?;
    rt.stdout().write_all(page(&bytes).as_bytes())
}
