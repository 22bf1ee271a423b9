// How long the rules take on 128 marks.
use marks::set::MarkSet;
use rule::degree::DegreeRule;
use rule::pair::PairRule;
use rule::rules::CeilingRule;
use std::io;
use std::time::Instant;
use tables::bits::BitTable;
use trials::agreed::Agreed;
use trials::chance::Chance;
use trials::sheets::table;

// Asks one rule often, and prints how long it took.
fn time<R: CeilingRule>(
    rt: &HostRuntime,
    name: &str,
    rule: &R,
    table: &BitTable,
    chosen: MarkSet,
) -> io::Result<()> {
    let all = MarkSet::below(128);
    let start = Instant::now(rt)?;
    let mut sum = 0u32;
    for _ in 0..10_000 {
        sum = sum.wrapping_add(rule.ceiling(2, table, chosen, all));
    }
    let took = start.elapsed(rt)?.as_micros() / 10;
    let number = sum / 10_000;
    println!(rt; "    {name} {number}: {took} nanoseconds")
}

// 128 marks, of which the first so many all agree, and each other pair in some tenths of all cases.
pub fn times(rt: &HostRuntime) -> io::Result<()> {
    for tenths in [1u32, 5, 9] {
        let agreed = Agreed::<128>::by_chance(128, tenths, &mut Chance::from_seed(tenths));
        for count in [2u32, 4, 8, 16, 32] {
            println!(rt; "{tenths} tenths, {count} chosen marks:")?;
            let Ok(table) = table(128, |i, j| j < count || agreed.has(i, j)) else {
                return println!(rt; "    NO TABLE");
            };
            let chosen = MarkSet::below(count);
            time(rt, "degree", &DegreeRule, &table, chosen)?;
            time(rt, "pair", &PairRule, &table, chosen)?;
        }
    }
    Ok(())
}
