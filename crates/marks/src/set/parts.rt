// What a set is made of.
ghost use Rattle.std.specs.Prelude.{◌≡◌};
ghost use Rattle.plex.specs.Sets.{card};
ghost use Rattle.marks.specs.Members.{members};

use super::MarkSet;

impl MarkSet {
    pub fn words(self) -> [u32; 4]
        ensures { result ≡ self.words }
    {
        self.words
    }

    // How many marks are in the set.
    pub fn count(self) -> u32
        ensures { result ≡ card 128 (members self) }
    {
        self.count
    }
}
