// How many places a group takes, and writing it into places that the caller lends.
ghost use Rattle.std.specs.Prelude.{◌≡◌};
ghost use Rattle.plex.specs.Sets.{card};
ghost use Rattle.held.specs.Groups.{held_set, CopiesInto};

use super::Held;

impl Held {
    // How many marks are in the group.
    pub fn count(&self) -> u32
        ensures { result ≡ card 128 (held_set self.now) }
    {
        self.set.count()
    }

    // Writes the marks, rising, into the first places, and says how many; none, and nothing is written, where there are too
    // few places.
    pub fn copy_into(&self, places: &mut [u32]) -> Option<u32>
        ensures { CopiesInto (held_set self.now) places.old places.new result }
    {
        let count = self.count();
        let end = count as usize;
        if places.len() < end {
            return None;
        }
        places[..end].copy_from_slice(&self.marks[..end]);
        Some(count)
    }
}
