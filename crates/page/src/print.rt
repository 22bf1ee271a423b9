// What is printed of a file.
ghost use Rattle.std.specs.Prelude.{◌≡◌, ◌≤◌, [], ◌∷◌, ◌++◌, length, decimal};
ghost use Rattle.text.specs.Shown.{shown};
ghost use Rattle.page.specs.Verdicts.{Printed, OneVerdict};

use crate::verdict::verdict;
use text::Page;

// The line that is printed of a file: how many marks it has and for which k, or why it is refused.
#[tactic(auto, using(crate::proofs::Once::one_on_bytes))]
pub fn page(bytes: &[u8]) -> Page
    ensures printed { Printed bytes.now (shown result) }
    ensures once { OneVerdict }
    ensures short { length (shown result) ≤ 512 }
{
    match verdict(bytes) {
        Ok(summary) => numbers_line(
            b"MARKS ",
            summary.marks as usize,
            b" K ",
            summary.k as usize,
        ),
        Err(refusal) => numbers_line(
            b"REFUSED ",
            refusal.number() as usize,
            b" WORD ",
            refusal.place(),
        ),
    }
}

// A line of two short texts, each with a number behind it. `write!` promises the text only where it answers `Ok`, and does
// not say when that is, and a page has no case that fails.
fn numbers_line(start: &[u8], m: usize, middle: &[u8], n: usize) -> Page
    requires { (length start.now ≤ 8) × (length middle.now ≤ 8) }
    ensures { shown result ≡ start.now ++ (decimal m ++ (middle.now ++ (decimal n ++ (10 ∷ [])))) }
{
    let mut page = Page::new();
    page.push_bytes(start);
    page.push_number(m);
    page.push_bytes(middle);
    page.push_number(n);
    page.push_bytes(b"\n");
    page
}
