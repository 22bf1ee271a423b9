// What a search says of itself.
ghost use Rattle.std.specs.Prelude.{◌≡◌, ◌+◌, take};
ghost use Rattle.plex.specs.Sets.{card};
ghost use Rattle.plex.specs.Words.{holds};
ghost use Rattle.searching.specs.Calls.{Does, Report, Tally as TallyCall, CopyOut};
ghost use Rattle.searching.specs.States.{capped, settled};
ghost use Rattle.search.specs.View.{view};

use super::Search;
use branch::branches::Branch;
use held::steps::{add_capped, steps_for};
use marks::set::MarkSet;
use rule::rules::CeilingRule;
use searching::refusal::SearchRefusal;
use searching::tally::Tally;

// How many candidates a branch has.
fn candidates_in(branch: Branch) -> u32
    ensures { result ≡ card 128 (holds branch.candidates) }
{
    MarkSet::from_words(branch.candidates).count()
}

// How many marks a branch has, chosen or candidates.
fn width_of(branch: Branch) -> u32
    ensures { result ≡ card 128 (holds branch.chosen) + card 128 (holds branch.candidates) }
{
    MarkSet::from_words(branch.chosen).count() + candidates_in(branch)
}

// As a parameter the count is known to have 32 bits, so it never passes the cap.
fn as_capped(count: u32) -> u32
    ensures { result ≡ capped count }
{
    count
}

impl<R: CeilingRule> Search<R> {
    // The open branches, the newest last.
    fn open(&self) -> &[Branch]
        ensures { result.now ≡ take self.now.count self.now.branches }
    {
        &self.branches[..self.count]
    }

    // Whether no branch is open.
    pub(crate) fn is_settled(&self) -> bool
        ensures { result ≡ settled (view R.CeilingRule.number self.now) }
    {
        self.count == 0
    }

    // The size of the group held, and a number of marks that no k-plex of the sheet exceeds.
    pub fn report(&self) -> (u32, u32)
        ensures { Does (view R.CeilingRule.number self.now) Report result (view R.CeilingRule.number self.now) }
    {
        let size = self.held.count();
        let most = self
            .open()
            .iter()
            .fold(size, |most, branch| most.max(width_of(*branch)));
        (size, most.min(self.top))
    }

    // The steps taken, how many are left, and whether the search is settled.
    pub fn tally(&self) -> Tally
        ensures { Does (view R.CeilingRule.number self.now) TallyCall result (view R.CeilingRule.number self.now) }
    {
        let left = self.open().iter().fold(0, |left, branch| {
            add_capped(left, steps_for(candidates_in(*branch)))
        });
        Tally {
            taken: as_capped(self.taken),
            left,
            settled: self.is_settled(),
        }
    }

    // Writes the group held, rising, into the first places, if the search is settled.
    pub fn copy_out(&self, places: &mut [u32]) -> Result<u32, SearchRefusal>
        ensures { Does (view R.CeilingRule.number self.now) (CopyOut places.old) (result, places.new) (view R.CeilingRule.number self.now) }
    {
        if !self.is_settled() {
            return Err(SearchRefusal::NotSettled);
        }
        self.held
            .copy_into(places)
            .ok_or(SearchRefusal::TooFewPlaces)
    }
}
