// What an agreement needs to stay.
ghost use Rattle.std.specs.Prelude.{◌≡◌, ◌≤◌, ◌||◌, nat_lt};
ghost use Rattle.pruning.specs.Pruned.{ends_needed, shared_needed};

// How many agreements each end of an agreement needs, and how many marks the two must share.
#[derive(Clone, Copy)]
pub(crate) struct Limits {
    pub(crate) ends: u32,
    pub(crate) shared: u32,
}

impl Limits {
    // The limits for a k-plex of more than floor marks.
    pub(crate) fn for_floor(k: u32, floor: u32) -> Limits
        requires { (k ≤ 16) × (floor ≤ 128) }
        ensures ends { result.ends ≡ ends_needed k floor }
        ensures shared { result.shared ≡ shared_needed k floor }
    {
        Limits {
            ends: (floor + 1).saturating_sub(k),
            shared: (floor + 1).saturating_sub(2 * k),
        }
    }

    // Whether one of these numbers is too low: the agreements of either end, or the marks that both share.
    pub(crate) fn unmet(self, of_i: u32, of_j: u32, both: u32) -> bool
        ensures { result ≡ (nat_lt of_i self.ends || (nat_lt of_j self.ends || nat_lt both self.shared)) }
    {
        of_i < self.ends || of_j < self.ends || both < self.shared
    }
}
