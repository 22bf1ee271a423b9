// How long co-pruning takes on 128 marks.
use coprune::look::Pair;
use coprune::prune::co_prune;
use marks::set::MarkSet;
use std::io;
use std::time::Instant;
use trials::agreed::Agreed;
use trials::chance::Chance;
use trials::sheets::table;

// Co-prunes a table of 128 marks, of which each pair agrees in some tenths of all cases, and prints how long it took and
// how many marks are left.
fn time(rt: &HostRuntime, tenths: u32, k: u32, floor: u32) -> io::Result<()> {
    let all = Agreed::<128>::by_chance(128, tenths, &mut Chance::from_seed(tenths));
    let Ok(mut table) = table(128, |i, j| all.has(i, j)) else {
        return println!(rt; "{tenths} tenths: NO TABLE");
    };
    let mut left = MarkSet::empty();
    let mut marks = [0; 128];
    let mut pairs = [Pair { a: 0, b: 0 }; 8128];
    let start = Instant::now(rt)?;
    let _ = co_prune(&mut table, k, floor, &mut left, &mut marks, &mut pairs);
    let took = start.elapsed(rt)?.as_micros();
    let count = left.count();
    println!(rt; "{tenths} tenths, k {k}, floor {floor}: {took} microseconds, {count} marks left")
}

pub fn times(rt: &HostRuntime) -> io::Result<()> {
    for floor in [4u32, 5, 6] {
        time(rt, 1, 2, floor)?;
    }
    for floor in [10u32, 14, 18, 22] {
        time(rt, 5, 2, floor)?;
    }
    for floor in [40u32, 80, 95, 105] {
        time(rt, 9, 2, floor)?;
    }
    Ok(())
}
