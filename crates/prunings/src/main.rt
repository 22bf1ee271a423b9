// A table of co-prunings: on both kinds of table, against a plain listing that strikes until nothing changes.
// With an argument it prints how long co-pruning takes on 128 marks.
#![tactic(auto)]

mod calls;
mod left;
mod listing;
mod sheets;
mod timing;

use std::{env, io};

fn main(rt: HostRuntime) -> io::Result<()> {
    if env::args(&rt)?.count() > 1 {
        return timing::times(&rt);
    }
    sheets::worked(&rt)?;
    calls::refusals(&rt)?;
    calls::copies(&rt)?;
    calls::strikes(&rt)?;
    for marks in 0..13 {
        sheets::generated(&rt, marks)?;
    }
    Ok(())
}
