// A search for a largest k-plex of a sheet.
ghost use Rattle.std.specs.Prelude.{◌≡◌, ℕ, false};
ghost use Rattle.search.specs.Stacks.{chosen_outside, candidate_outside, in_both, too_large, out_of_order, held_outside};

use branch::branches::Branch;
use held::group::Held;
use tables::bits::BitTable;

// It holds its rule, a copy of the sheet by which offers are judged, and a second copy, co-pruned, for its steps.
#[derive(Drop)]
pub struct Search<R> {
    rule: R,
    k: u32,
    top: u32,
    taken: u32,
    sheet: BitTable,
    table: BitTable,
    held: Held,
    // the open branches, the newest last, and how many: at most one branch more than there are marks is ever open, and no
    // memory is asked for
    branches: [Branch; 129],
    count: usize,
    ghost alike: { table.marks ≡ sheet.marks },
    ghost chosens: { (j i : ℕ) → chosen_outside branches count sheet.marks j i ≡ false },
    ghost candidates: { (j i : ℕ) → candidate_outside branches count sheet.marks j i ≡ false },
    ghost apart: { (j i : ℕ) → in_both branches count j i ≡ false },
    ghost plex: { (j : ℕ) → too_large branches count sheet.marks k table.rows held.set.words j ≡ false },
    ghost ordered: { (j : ℕ) → out_of_order branches count sheet.marks j ≡ false },
    ghost inside: { (i : ℕ) → held_outside sheet.marks held.set.words i ≡ false },
}

pub mod making;
pub mod offering;
pub mod running;
pub mod stepping;
pub mod telling;
