// The marks by which a branch may be split.
ghost use Rattle.std.specs.Prelude.{◌≡◌};
ghost use Rattle.searching.specs.Steps.{tight};
ghost use Rattle.searching.specs.Computed.{pick_from};
ghost use Rattle.marks.specs.Members.{members};
ghost use Rattle.branch.specs.Opened.{agreed};

use crate::opened::Opened;
use marks::set::MarkSet;
use sheet::kinds::neighbours;

impl Opened<'_> {
    // The candidates that may miss no further mark.
    pub(crate) fn tight_marks(self) -> MarkSet
        ensures { members result ≡ tight 128 self.entry.k (agreed self.entry) (members self.entry.chosen) (members self.entry.candidates) }
    {
        self.candidates.filter(|v| self.misses(v) + 1 == self.k)
    }

    // Of some marks the one with most agreements inside the branch, the lowest of those.
    pub(crate) fn most_agreeing(self, marks: MarkSet) -> Option<u32>
        ensures { result ≡ pick_from 128 (agreed self.entry) (members self.entry.chosen) (members self.entry.candidates) (members marks) }
    {
        let all = self.chosen.or(self.candidates);
        marks
            .rising()
            .min_by_key(|v| 128 - all.and(neighbours(self.table, *v)).count())
    }
}
