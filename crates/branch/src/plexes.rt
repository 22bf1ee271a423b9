// The test for a k-plex.
ghost use Rattle.std.specs.Prelude.{◌≡◌};
ghost use Rattle.plex.specs.Sets.{is_kplex};
ghost use Rattle.marks.specs.Members.{members};
ghost use Rattle.tables.specs.Meanings.{bit_meaning};

use marks::set::MarkSet;
use sheet::kinds::neighbours;
use tables::bits::BitTable;

// Whether a set of marks is a k-plex.
pub fn is_kplex(table: &BitTable, k: u32, set: MarkSet) -> bool
    ensures { result ≡ is_kplex 128 k (bit_meaning table.now).agrees (members set) }
{
    set.rising()
        .all(|u| set.minus(neighbours(table, u)).count() <= k)
}
