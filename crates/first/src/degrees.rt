// The degree of a mark in a set: how many marks of the set agree with it.
ghost use Rattle.std.specs.Prelude.{◌≡◌, ℕ, ◌<◌, true};
ghost use Rattle.plex.specs.Least.{Least};
ghost use Rattle.marks.specs.Members.{members};
ghost use Rattle.tables.specs.Meanings.{bit_meaning};
ghost use Rattle.first.specs.Degrees.{degree, HasDegrees, OneLess};

use marks::set::MarkSet;
use sheet::kinds::neighbours;
use tables::bits::BitTable;

// The degree of each mark of a set.
pub(crate) fn degrees_in(table: &BitTable, set: MarkSet) -> [u32; 128]
    ensures { HasDegrees (bit_meaning table.now).agrees (members set) result }
{
    let mut degrees = [0; 128];
    for u in set.rising() {
        degrees[u as usize] = set.and(neighbours(table, u)).count();
    }
    degrees
}

// The mark of a set with the smallest degree, the lowest of those.
pub(crate) fn least_mark(degrees: &[u32; 128], set: MarkSet) -> Option<u32>
    ensures { Least 128 (members set) (degree degrees.now) result }
{
    set.rising().min_by_key(|v| degrees[*v as usize])
}

// The degrees of these marks become one less.
pub(crate) fn lower(degrees: &mut [u32; 128], marks: MarkSet)
    requires { (v : ℕ) → members marks v ≡ true → 0 < degree degrees.old v }
    ensures { OneLess degrees.old (members marks) degrees.new }
{
    for v in marks.rising() {
        degrees[v as usize] -= 1;
    }
}
