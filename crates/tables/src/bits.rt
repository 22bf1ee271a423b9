// A table with a row of bits for each mark.
ghost use Rattle.std.specs.Prelude.{◌≡◌, ℕ, ◌≤◌, false, ◌&&◌, nat_le};
ghost use Rattle.tables.specs.Bits.{bit_agrees};

// Row i holds the marks that agree with mark i, as the four words of a mark set; rows at and above `marks` are empty.
#[derive(Clone, Copy)]
pub struct BitTable {
    rows: [[u32; 4]; 128],
    marks: u32,
    ghost few: { marks ≤ 128 },
    ghost symmetric: { (i j : ℕ) → bit_agrees rows i j ≡ bit_agrees rows j i },
    ghost irreflexive: { (i : ℕ) → bit_agrees rows i i ≡ false },
    ghost inside: { (i j : ℕ) → (nat_le marks i && bit_agrees rows i j) ≡ false },
}

pub mod copying;
pub mod questions;
