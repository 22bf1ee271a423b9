// The candidates that agree with enough others.
ghost use Rattle.marks.specs.Members.{members};
ghost use Rattle.branch.specs.Opened.{agreed};
ghost use Rattle.branch.specs.Agreeing.{LargestAgreeing, Swept};

use crate::opened::Opened;
use marks::set::MarkSet;
use sheet::kinds::neighbours;

impl Opened<'_> {
    // The largest part of the candidates in which each agrees with more than `few` marks of the chosen ones and that part.
    pub(crate) fn agreeing_enough(self, few: u32) -> MarkSet
        ensures { LargestAgreeing few (agreed self.entry) (members self.entry.chosen) (members self.entry.candidates) (members result) }
    {
        let mut fitting = self.candidates;
        // until a pass takes nothing away
        loop {
            let next = self.narrowed(fitting).swept(few);
            if next.count() == fitting.count() {
                return next;
            }
            fitting = next;
        }
    }

    // One pass: a mark with too few agreements leaves at once.
    fn swept(self, few: u32) -> MarkSet
        ensures { Swept few (agreed self.entry) (members self.entry.chosen) (members self.entry.candidates) (members result) }
    {
        let mut fitting = self.candidates;
        let mut all = self.chosen.or(self.candidates);
        for v in self.candidates.rising() {
            if all.and(neighbours(self.table, v)).count() <= few {
                fitting = fitting.without(v);
                all = self.chosen.or(fitting);
            }
        }
        fitting
    }
}
