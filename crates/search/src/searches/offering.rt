// Offers of groups from outside.
ghost use Rattle.std.specs.Prelude.{◌≡◌, OnErr};
ghost use Rattle.searching.specs.Calls.{Does, Offer};
ghost use Rattle.search.specs.Offers.{Judged};
ghost use Rattle.search.specs.View.{view};

use super::Search;
use branch::plexes::is_kplex;
use held::group::Held;
use held::offered::set_of_rising;
use marks::set::MarkSet;
use rule::rules::CeilingRule;
use searching::refusal::SearchRefusal;
use sheet::kinds::Sheet;

impl<R: CeilingRule> Search<R> {
    // Holds the marks of a strictly rising list from now on, if they are a larger k-plex of the sheet.
    pub fn offer(&mut self, marks: &[u32]) -> Result<u32, SearchRefusal>
        ensures does { Does (view R.CeilingRule.number self.old) (Offer marks.now) result (view R.CeilingRule.number self.new) }
        ensures unchanged { OnErr result (self.new ≡ self.old) }
    {
        let group = self.judge(marks)?;
        self.held = Held::of(group);
        // an accepted call that has no other answer answers 0, as the rules say
        Ok(0)
    }

    // The set of a list that is to be taken.
    fn judge(&self, marks: &[u32]) -> Result<MarkSet, SearchRefusal>
        ensures { Judged (view R.CeilingRule.number self.now) marks.now result }
    {
        let all = self.sheet.marks();
        if marks.len() > all as usize {
            return Err(SearchRefusal::ListTooLong);
        }
        let group = set_of_rising(marks, all).ok_or(SearchRefusal::NotRisingMarks)?;
        if !is_kplex(&self.sheet, self.k, group) {
            return Err(SearchRefusal::NotPlex);
        }
        if group.count() <= self.held.count() {
            return Err(SearchRefusal::NotLarger);
        }
        Ok(group)
    }
}
