// Co-pruning by a plain listing: every agreement is asked for, and rounds are repeated until nothing changes.
use trials::agreed::Agreed;

// How many marks agree with i. Not by `filter` and `count`: the program, which counts more than anything else, would take
// more than twice as long.
pub fn degree(all: &Agreed<12>, i: u32) -> usize {
    (0..12)
        .map(|j| usize::from(all.has(i, j)))
        .fold(0, usize::saturating_add)
}

// How many marks agree with both i and j.
fn shared(all: &Agreed<12>, i: u32, j: u32) -> usize {
    (0..12)
        .map(|m| usize::from(all.has(i, m) && all.has(j, m)))
        .fold(0, usize::saturating_add)
}

// What agreements are pruned for: groups for k, of more marks than the floor.
#[derive(Clone, Copy)]
pub struct Bounds {
    pub k: u32,
    pub floor: u32,
}

impl Bounds {
    // How many marks the smallest group above the floor has, less so many.
    fn smallest_less(self, fewer: usize) -> usize {
        (self.floor as usize)
            .saturating_add(1)
            .saturating_sub(fewer)
    }

    // How many marks must agree with each end of an agreement for it to stay.
    pub fn ends(self) -> usize {
        self.smallest_less(self.k as usize)
    }

    // How many marks must agree with both ends.
    fn shared(self) -> usize {
        self.smallest_less((self.k as usize).saturating_mul(2))
    }

    fn keep(self, all: &Agreed<12>, i: u32, j: u32) -> bool {
        degree(all, i) >= self.ends()
            && degree(all, j) >= self.ends()
            && shared(all, i, j) >= self.shared()
    }

    // What is left after one round, in which all agreements that fail are struck at once.
    fn round(self, all: &Agreed<12>) -> Agreed<12> {
        let mut next = *all;
        for i in 0..12 {
            for j in 0..12 {
                if all.has(i, j) && !self.keep(all, i, j) {
                    next.set(i, j, false);
                }
            }
        }
        next
    }

    // What is left when nothing changes any more: 66 agreements take at most 66 rounds.
    pub fn prune(self, all: &Agreed<12>) -> Agreed<12> {
        (0..66).fold(*all, |now, _| self.round(&now))
    }
}
