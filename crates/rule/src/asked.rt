// What a rule is asked.
ghost use Rattle.std.specs.Prelude.{◌≡◌};
ghost use Rattle.plex.specs.Sets.{◌∖◌};
ghost use Rattle.marks.specs.Members.{members};
ghost use Rattle.ceiling.specs.Formulas.{marks_of_both};

use marks::set::MarkSet;
use tables::bits::BitTable;

// One question; `others` are the candidates without the chosen marks.
#[derive(Clone, Copy)]
pub(crate) struct Asked<'a> {
    pub(crate) k: u32,
    pub(crate) table: &'a BitTable,
    pub(crate) chosen: MarkSet,
    pub(crate) others: MarkSet,
}

impl<'a> Asked<'a> {
    pub(crate) fn of(k: u32, table: &'a BitTable, chosen: MarkSet, candidates: MarkSet) -> Asked<'a>
        ensures k { result.k ≡ k }
        ensures table { result.table.now ≡ table.now }
        ensures chosen { result.chosen ≡ chosen }
        ensures others { members result.others ≡ members candidates ∖ members chosen }
    {
        Asked {
            k,
            table,
            chosen,
            others: candidates.minus(chosen),
        }
    }

    // The number of all marks.
    pub(crate) fn all_marks(self) -> u32
        ensures { result ≡ marks_of_both 128 (members self.entry.chosen) (members self.entry.others) }
    {
        self.chosen.count() + self.others.count()
    }
}
