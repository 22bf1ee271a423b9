// Why a search is not made, and the numbers of refusals.
ghost use Rattle.std.specs.Prelude.{◌≡◌};
ghost use Rattle.searching.specs.Calls.{number as call_number};
ghost use Rattle.search.specs.Making.{number};

use searching::refusal::SearchRefusal;

// Not co-pruning's enum, which has one refusal more.
#[derive(Clone, Copy)]
pub enum MakeRefusal {
    // k is not 1 to 16
    KOutOfRange = 41,
    // fewer places for marks than the sheet has marks
    TooFewMarkPlaces = 42,
    // fewer places for pairs than the sheet has agreements
    TooFewPairPlaces = 43,
}

impl MakeRefusal {
    pub fn number(self) -> u32
        ensures { result ≡ number self }
    {
        self as u32
    }
}

// The number of a call's refusal. No method: the enum stands in the theory below, whose functions are theorems.
pub fn number_of(refusal: SearchRefusal) -> u32
    ensures { result ≡ call_number refusal }
{
    refusal as u32
}
