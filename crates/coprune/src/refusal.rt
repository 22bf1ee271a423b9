// Why co-pruning is refused.
ghost use Rattle.std.specs.Prelude.{◌≡◌};
ghost use Rattle.coprune.specs.Answers.{number};

#[derive(Clone, Copy)]
pub enum PruneRefusal {
    // k is not 1 to 16
    KOutOfRange = 41,
    // fewer places for marks than the sheet has marks
    TooFewMarkPlaces = 42,
    // fewer places for pairs than the sheet has agreements
    TooFewPairPlaces = 43,
    // the floor is above 128
    FloorTooHigh = 44,
}

impl PruneRefusal {
    pub fn number(self) -> u32
        ensures { result ≡ number self }
    {
        self as u32
    }
}
