// Making, asking and combining sets.
ghost use Rattle.std.specs.Prelude.{◌≡◌, ℕ, ◌<◌, ◌≤◌, false, ◌==◌, min, slice_index};
ghost use Rattle.plex.specs.Sets.{below, card, none, only, ◌∩◌, ◌∪◌, ◌∖◌};
ghost use Rattle.marks.specs.Members.{members, Lowest};

use super::MarkSet;

impl MarkSet {
    // By a name and not by `From`, which would not say what the array holds.
    pub fn from_words(words: [u32; 4]) -> MarkSet
        ensures { result.words ≡ words }
    {
        let count = words[0].count_ones()
            + words[1].count_ones()
            + words[2].count_ones()
            + words[3].count_ones();
        MarkSet { words, count }
    }

    pub fn empty() -> MarkSet
        ensures { members result ≡ none }
    {
        MarkSet {
            words: [0; 4],
            count: 0,
        }
    }

    // The marks below a number; all of them from 128 on.
    pub fn below(limit: u32) -> MarkSet
        ensures { members result ≡ below (min limit 128) }
    {
        let mut set = MarkSet::empty();
        for mark in 0..limit.min(128) {
            set = set.with(mark);
        }
        set
    }

    // The mark alone; nothing where the number is 128 or more.
    pub fn single(mark: u32) -> MarkSet
        ensures inside { mark < 128 → members result ≡ only mark }
        ensures outside { 128 ≤ mark → members result ≡ none }
    {
        MarkSet::empty().with(mark)
    }

    pub fn is_empty(self) -> bool
        ensures { result ≡ (card 128 (members self) == 0) }
    {
        self.count == 0
    }

    // Whether the mark is in the set; a number of 128 or more is in none.
    pub fn has(self, mark: u32) -> bool
        ensures inside { result ≡ members self mark }
        ensures outside { 128 ≤ mark → result ≡ false }
    {
        mark < 128 && (self.words[mark as usize / 32] >> (mark % 32)) & 1 == 1
    }

    // The set with the mark; the same set where the number is 128 or more.
    pub fn with(self, mark: u32) -> MarkSet
        ensures inside { mark < 128 → members result ≡ members self ∪ only mark }
        ensures outside { 128 ≤ mark → result ≡ self }
    {
        if mark >= 128 || self.has(mark) {
            return self;
        }
        let mut words = self.words;
        words[mark as usize / 32] |= 1 << (mark % 32);
        MarkSet {
            words,
            count: self.count + 1,
        }
    }

    pub fn without(self, mark: u32) -> MarkSet
        ensures { members result ≡ members self ∖ only mark }
    {
        if mark >= 128 || !self.has(mark) {
            return self;
        }
        let mut words = self.words;
        words[mark as usize / 32] &= !(1 << (mark % 32));
        MarkSet {
            words,
            count: self.count - 1,
        }
    }

    // The set of four words, each made of the words of both sets that stand where it stands.
    fn word_by_word<F: Fn(u32, u32) -> u32>(self, other: MarkSet, make: F) -> MarkSet
        requires { F.IsAlwaysCallable make }
        ensures { (w : ℕ) → w < 4 → F.post make (slice_index self.words w) (slice_index other.words w) (slice_index result.words w) }
    {
        let [a0, a1, a2, a3] = self.words;
        let [b0, b1, b2, b3] = other.words;
        MarkSet::from_words([make(a0, b0), make(a1, b1), make(a2, b2), make(a3, b3)])
    }

    // The marks of both sets.
    pub fn and(self, other: MarkSet) -> MarkSet
        ensures { members result ≡ members self ∩ members other }
    {
        self.word_by_word(other, |a, b| a & b)
    }

    // The marks of either set.
    pub fn or(self, other: MarkSet) -> MarkSet
        ensures { members result ≡ members self ∪ members other }
    {
        self.word_by_word(other, |a, b| a | b)
    }

    // The marks of this set that are not in the other.
    pub fn minus(self, other: MarkSet) -> MarkSet
        ensures { members result ≡ members self ∖ members other }
    {
        self.word_by_word(other, |a, b| a & !b)
    }

    // The mark with the lowest number.
    pub fn lowest(self) -> Option<u32>
        ensures { Lowest (members self) result }
    {
        for (at, word) in self.words.iter().enumerate() {
            if *word != 0 {
                return Some(32 * at as u32 + word.trailing_zeros());
            }
        }
        None
    }
}
