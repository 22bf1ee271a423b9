// Sheets and tables of the pairs that agree.
ghost use Rattle.std.specs.Prelude.{◌≡◌, ◌<◌, ◌≤◌, IfOk, MatchResult};
ghost use Rattle.sheet.specs.contracts.entry.questions.SealedSheet.TheImpl.{ghosts};
ghost use Rattle.sheet.specs.Entering.{IsNotBegun};
ghost use Rattle.sheet.specs.declared.entry.EntryRefusal.TheVariants.{TooManyMarks};
ghost use Rattle.trials.specs.Entries.{AsAnswered, HasRoom};
ghost use Rattle.tables.specs.Meanings.{bit_meaning};

use sheet::entry::{Entry, EntryRefusal, Sealed};
use tables::bits::BitTable;

// A sheet of so many marks, in words that the caller lends.
pub fn sheet<'a, F: Fn(u32, u32) -> bool>(
    words: &'a mut [u32],
    marks: u32,
    agrees: F,
) -> Result<Sealed<'a>, EntryRefusal>
    requires { F.IsAlwaysCallable agrees }
    ensures marks { IfOk result (λ s. s.marks ≡ marks) }
    ensures agreement { IfOk result (λ s. AsAnswered (F.post agrees) marks (ghosts.meaning s).agrees) }
    ensures refused { MatchResult result (λ s. HasRoom words.old marks) (λ r. IsNotBegun words.old marks r) }
{
    // not by `map_err`: a closure over what lends words is not covered
    let mut entry = match Entry::begin(words, marks) {
        Ok(entry) => entry,
        Err(not_begun) => return Err(not_begun.refusal),
    };
    for i in 0..marks {
        for j in i + 1..marks {
            if agrees(i, j) {
                entry.enter(i, j)?;
            }
        }
    }
    Ok(entry.seal())
}

// A table of so many marks.
pub fn table<F: Fn(u32, u32) -> bool>(marks: u32, agrees: F) -> Result<BitTable, EntryRefusal>
    requires { F.IsAlwaysCallable agrees }
    ensures marks { IfOk result (λ t. (bit_meaning t).marks ≡ marks) }
    ensures agreement { IfOk result (λ t. AsAnswered (F.post agrees) marks (bit_meaning t).agrees) }
    ensures refused { MatchResult result (λ t. marks ≤ 128) (λ r. (r ≡ TooManyMarks) × (128 < marks)) }
{
    let mut words = [0; 512];
    Ok(BitTable::copy_of(&sheet(&mut words, marks, agrees)?))
}
