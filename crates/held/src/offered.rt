// Lists of marks that are offered to a search.
ghost use Rattle.held.specs.Reading.{ReadsList};

use marks::set::MarkSet;

// The set of a strictly rising list of marks below n; none for any other list. No mark is 128 or more, whatever n is.
pub fn set_of_rising(list: &[u32], n: u32) -> Option<MarkSet>
    ensures { ReadsList n list.now result }
{
    let limit = n.min(128);
    let mut set = MarkSet::empty();
    let mut lowest = 0;
    for &mark in list {
        if !(lowest..limit).contains(&mark) {
            return None;
        }
        set = set.with(mark);
        lowest = mark + 1;
    }
    Some(set)
}
