// The group that is held first.
ghost use Rattle.std.specs.Prelude.{◌≡◌};
ghost use Rattle.plex.specs.Sets.{below};
ghost use Rattle.searching.specs.First.{Peels};
ghost use Rattle.marks.specs.Members.{members};
ghost use Rattle.tables.specs.Meanings.{bit_meaning};

use crate::degrees::{degrees_in, least_mark, lower};
use marks::set::MarkSet;
use sheet::kinds::{Sheet, neighbours};
use tables::bits::BitTable;

// The group that is held first, and a number of marks that no k-plex exceeds.
#[derive(Clone, Copy)]
pub struct FirstGroup {
    pub group: MarkSet,
    pub top: u32,
}

// Marks leave one by one, the one with fewest agreements first, until those that are left are a k-plex. One that has that
// mark has at most k marks more than it has agreements.
pub fn first_group(table: &BitTable, k: u32) -> FirstGroup
    ensures { Peels (bit_meaning table.now).marks k (bit_meaning table.now).agrees (below (bit_meaning table.now).marks) (members result.group) result.top }
{
    let mut group = MarkSet::below(table.marks());
    let mut degrees = degrees_in(table, group);
    let mut top = 0u32;
    // no iterator: which mark comes next hangs on those that left
    while let Some(u) = least_mark(&degrees, group) {
        let most = degrees[u as usize].saturating_add(k).min(group.count());
        top = top.max(most);
        if most == group.count() {
            return FirstGroup { group, top };
        }
        group = group.without(u);
        lower(&mut degrees, group.and(neighbours(table, u)));
    }
    FirstGroup { group, top }
}
