// Listing the words of pairs one after another.
ghost use Rattle.std.specs.Prelude.{◌≡◌, ℕ, ◌≤◌, false};
ghost use Rattle.tables.specs.Pairs.{left_over};

// Words, and zeros behind them: an array with its length, since no memory is asked for.
#[derive(Clone, Copy)]
pub(crate) struct PairList {
    pub(crate) words: [u32; 4096],
    pub(crate) len: usize,
    ghost room: { len ≤ 4096 },
    ghost blank: { (p : ℕ) → left_over words len p ≡ false },
}

mod calls;
