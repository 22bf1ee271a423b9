// The marks of a set, one by one, rising.
ghost use Rattle.std.specs.Prelude.{◌≡◌};
ghost use Rattle.marks.specs.Members.{members, Filtered};
ghost use Rattle.marks.specs.Rising.{Gives};
ghost use Rattle.std.specs.Iterator.{at_most};

use super::MarkSet;

// What is still to come of a set's marks.
#[derive(Clone, Copy)]
pub struct Rising {
    rest: MarkSet,
}

impl MarkSet {
    pub fn rising(self) -> Rising
        ensures { result.rest ≡ self }
    {
        Rising { rest: self }
    }

    // The marks of the set that a test keeps.
    pub fn filter<F: Fn(u32) -> bool>(self, keeps: F) -> MarkSet
        requires { F.IsAlwaysCallable keeps }
        ensures { Filtered (F.post keeps) (members self) (members result) }
    {
        let mut kept = self;
        for mark in self.rising() {
            if !keeps(mark) {
                kept = kept.without(mark);
            }
        }
        kept
    }
}

// Each call gives the lowest mark that has not come yet.
impl Iterator for Rising {
    type Item = u32;

    ghost can_next = { λ _. Unit {0} };

    ghost next_gives = { Gives };

    ghost remaining = { λ s. at_most s.rest.count };

    fn next(&mut self) -> Option<u32> {
        let mark = self.rest.lowest()?;
        self.rest = self.rest.without(mark);
        Some(mark)
    }
}
