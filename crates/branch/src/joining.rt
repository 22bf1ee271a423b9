// The candidates that may join the chosen marks one by one.
ghost use Rattle.plex.specs.Sets.{only, ◌∪◌, Kplex};
ghost use Rattle.marks.specs.Members.{members};
ghost use Rattle.branch.specs.Opened.{agreed};
ghost use Rattle.branch.specs.Sifting.{Sifted, Borne, MissesUnder};

use crate::opened::Opened;
use marks::set::MarkSet;
use sheet::kinds::neighbours;

impl Opened<'_> {
    // The candidates that each make a k-plex with the chosen marks.
    pub(crate) fn joinable(self) -> MarkSet
        ensures { Sifted (λ v. Kplex 128 self.entry.k (agreed self.entry) (members self.entry.chosen ∪ only v)) (members self.entry.candidates) (members result) }
    {
        self.missing_few(self.borne())
    }

    // The candidates with which no chosen mark misses too many: none where one misses more than k already, and where one
    // misses k, those that agree with it.
    fn borne(self) -> MarkSet
        ensures { Sifted (Borne self.entry.k (agreed self.entry) (members self.entry.chosen)) (members self.entry.candidates) (members result) }
    {
        let mut fitting = self.candidates;
        for u in self.chosen.rising() {
            let missed = self.misses(u);
            if missed > self.k {
                return MarkSet::empty();
            }
            if missed == self.k {
                fitting = fitting.and(neighbours(self.table, u).or(self.chosen));
            }
        }
        fitting
    }

    // Of some marks those that are chosen, or miss fewer than k chosen marks.
    fn missing_few(self, marks: MarkSet) -> MarkSet
        ensures { Sifted (MissesUnder self.entry.k (agreed self.entry) (members self.entry.chosen)) (members marks) (members result) }
    {
        marks.filter(|v| self.chosen.has(v) || self.misses(v) < self.k)
    }
}
