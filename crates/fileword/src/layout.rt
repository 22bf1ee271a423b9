// Taking a file word apart, and putting one together.
ghost use Rattle.std.specs.Prelude.{◌≡◌, ◌%◌, ◌^◌, ◌==◌};
ghost use Rattle.fileword.specs.Layout.{kind, kind_number, KindIs, load, upper, lower, head_marks, head_k, pair_word};

// The top four bits, also where they are the number of no kind.
pub fn kind_of(word: u32) -> u32
    ensures { result ≡ kind word }
{
    word / 0x1000_0000
}

// What a word holds.
#[derive(Clone, Copy, PartialEq, Eq, Debug)]
pub enum Kind {
    Head = 1,
    Pair = 2,
    // x and y of a planned point, and its z
    PlannedXy = 3,
    PlannedZ = 4,
    // x and y of a seen point, and its z
    SeenXy = 5,
    SeenZ = 6,
    Tolerance = 7,
    // a pair that was struck out of a table
    StruckPair = 14,
    End = 15,
}

impl Kind {
    // The kind of a word, if its top four bits are the number of one.
    pub fn of(word: u32) -> Option<Kind>
        ensures { KindIs (kind word) result }
    {
        match kind_of(word) {
            1 => Some(Kind::Head),
            2 => Some(Kind::Pair),
            3 => Some(Kind::PlannedXy),
            4 => Some(Kind::PlannedZ),
            5 => Some(Kind::SeenXy),
            6 => Some(Kind::SeenZ),
            7 => Some(Kind::Tolerance),
            14 => Some(Kind::StruckPair),
            15 => Some(Kind::End),
            _ => None,
        }
    }

    // Whether a word is of this kind: one comparison, where `of` tells all kinds apart.
    pub fn is_of(self, word: u32) -> bool
        ensures { result ≡ (kind word == kind_number self) }
    {
        kind_of(word) == self as u32
    }
}

// The other 28 bits.
pub fn load_of(word: u32) -> u32
    ensures { result ≡ load word }
{
    word % 0x1000_0000
}

// Bits 27 to 14: a pair's first mark, or x.
pub fn upper_of(word: u32) -> u32
    ensures { result ≡ upper word }
{
    load_of(word) / 0x4000
}

// Bits 13 to 0: a pair's second mark, or y, or z.
pub fn lower_of(word: u32) -> u32
    ensures { result ≡ lower word }
{
    word % 0x4000
}

// How many marks a head says there are: bits 7 to 0.
pub fn marks_of(head: u32) -> u32
    ensures { result ≡ head_marks head }
{
    head % 0x100
}

// The k that a head was made for: bits 15 to 8.
pub fn k_of(head: u32) -> u32
    ensures { result ≡ head_k head }
{
    head / 0x100 % 0x100
}

// The word of a pair of marks, of which the lower 14 bits count.
pub fn word_of_pair(a: u32, b: u32) -> u32
    ensures { result ≡ pair_word (a % 2 ^ 14) (b % 2 ^ 14) }
{
    Kind::Pair as u32 * 0x1000_0000 + a % 0x4000 * 0x4000 + b % 0x4000
}
