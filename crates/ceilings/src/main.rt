// A table of ceilings: the degree rule, the pair rule, the smaller of both and a pile of three, against a plain
// computation. With an argument it prints how long the rules take on 128 marks.
#![tactic(auto)]

mod asked;
mod plain;
mod sheets;
mod timing;

use std::{env, io};

fn main(rt: HostRuntime) -> io::Result<()> {
    if env::args(&rt)?.count() > 1 {
        return timing::times(&rt);
    }
    sheets::worked(&rt)?;
    sheets::far_apart(&rt)?;
    for marks in 0..13 {
        sheets::generated(&rt, marks)?;
    }
    Ok(())
}
