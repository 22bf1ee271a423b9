// Making a group, and the set that it is.
ghost use Rattle.std.specs.Prelude.{◌≡◌};

use super::Held;
use marks::set::MarkSet;

impl Held {
    pub fn of(set: MarkSet) -> Held
        ensures { result.set ≡ set }
    {
        let mut marks = [0; 128];
        // by index: over places lent one by one (`iter_mut().zip`) the loop's invariant does not see what was written
        for (place, mark) in set.rising().enumerate() {
            marks[place] = mark;
        }
        Held { marks, set }
    }

    pub fn set(&self) -> MarkSet
        ensures { result ≡ self.now.set }
    {
        self.set
    }
}
