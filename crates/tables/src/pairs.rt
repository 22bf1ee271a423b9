// A table with a word for each pair of marks that agree.
ghost use Rattle.std.specs.Prelude.{◌≡◌, ℕ, ◌≤◌, true, false};
ghost use Rattle.tables.specs.Pairs.{stands, out_of_order};

// The first `len` words are pair words as in a file, in the same order, or the same with kind 14 for a struck pair; the
// others are 0. An array with its length, since no memory is asked for, and not a `PairList`, of whose words no order is
// known.
#[derive(Clone, Copy)]
pub struct PairTable {
    words: [u32; 4096],
    len: usize,
    marks: u32,
    ghost few: { marks ≤ 128 },
    ghost room: { len ≤ 4096 },
    ghost each: { (p : ℕ) → stands words len marks p ≡ true },
    ghost rising: { (p q : ℕ) → out_of_order words len p q ≡ false },
}

// Why a sheet is not copied.
#[derive(Clone, Copy)]
pub enum TableRefusal {
    // more than 4,096 agreements
    TooManyAgreements = 31,
}

pub mod copying;
mod listing;
mod lookup;
pub mod questions;
