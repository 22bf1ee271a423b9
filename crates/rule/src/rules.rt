// What every ceiling rule answers.
ghost use Rattle.std.specs.Prelude.{◌≡◌};
ghost use Rattle.ceiling.specs.Formulas.{in_range};
ghost use Rattle.ceiling.specs.Rules.{Number, reply, Lawful};
ghost use Rattle.marks.specs.Members.{members};
ghost use Rattle.tables.specs.Meanings.{bit_meaning};

use marks::set::MarkSet;
use tables::bits::BitTable;

// A rule means a number for each k, agreement, set of chosen marks and set of candidates. Each rule owes the law that no
// k-plex that contains the chosen marks and lies in them and the candidates has more marks. A rule may be let go.
pub trait CeilingRule: Drop {
    ghost number: { Self → Number };

    // The number for any k, table and sets; candidates that are chosen marks are not read.
    fn ceiling(&self, k: u32, table: &BitTable, chosen: MarkSet, candidates: MarkSet) -> u32
        ensures { result ≡ reply (number self.now) k (bit_meaning table.now).agrees (members chosen) (members candidates) };

    ghost lawful: { (rule : Self) → Lawful (number rule) };
}

// k is from 1 to 16.
pub(crate) fn in_range(k: u32) -> bool
    ensures { result ≡ in_range k }
{
    (1..=16).contains(&k)
}
