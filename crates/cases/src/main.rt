// A table of cases: what is printed of good and bad files, and what sheets answer.
#![tactic(auto)]

mod files;
mod sheets;

use std::io;

fn main(rt: HostRuntime) -> io::Result<()> {
    files::good(&rt)?;
    files::wrong_kinds(&rt)?;
    files::spare_bits(&rt)?;
    files::out_of_range(&rt)?;
    files::wrong_pairs(&rt)?;
    files::ends(&rt)?;
    files::sizes(&rt)?;
    sheets::entered(&rt)?;
    sheets::beginnings(&rt)?;
    sheets::pairs(&rt)?;
    sheets::measured(&rt)
}
