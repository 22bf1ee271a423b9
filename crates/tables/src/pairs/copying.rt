// Copying a sheet into a table of pairs.
ghost use Rattle.std.specs.Prelude.{◌≡◌};
ghost use Rattle.tables.specs.Copying.{number, Listed, Copied};

use super::listing::PairList;
use super::{PairTable, TableRefusal};
use sheet::kinds::{Sheet, neighbours};

impl TableRefusal {
    pub fn number(self) -> u32
        ensures { result ≡ number self }
    {
        self as u32
    }
}

// The words of the pairs of a sheet.
fn pairs_of<S: Sheet>(sheet: &S) -> Result<PairList, TableRefusal>
    ensures { Listed (S.Sheet.meaning sheet.now) result }
{
    let marks = sheet.marks();
    let mut list = PairList::empty();
    for i in 0..marks {
        list.add_row(neighbours(sheet, i), i, marks)?;
    }
    Ok(list)
}

impl PairTable {
    // A table with the marks and the agreement of a sheet, unless it has too many agreements.
    pub fn copy_of<S: Sheet>(sheet: &S) -> Result<PairTable, TableRefusal>
        ensures { Copied (S.Sheet.meaning sheet.now) result }
    {
        let PairList { words, len } = pairs_of(sheet)?;
        Ok(PairTable {
            words,
            len,
            marks: sheet.marks(),
        })
    }
}
