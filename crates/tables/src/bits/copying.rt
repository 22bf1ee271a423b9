// Copying a sheet into a table of bits.
ghost use Rattle.std.specs.Prelude.{◌≡◌};
ghost use Rattle.tables.specs.Bits.{bit_agrees};
ghost use Rattle.tables.specs.Meanings.{bit_meaning};

use super::BitTable;
use sheet::kinds::Sheet;

// The rows of a sheet.
fn rows_of<S: Sheet>(sheet: &S) -> [[u32; 4]; 128]
    ensures { bit_agrees result ≡ (S.Sheet.meaning sheet.now).agrees }
{
    let mut rows = [[0; 4]; 128];
    // by number: over rows that are lent one by one, `zip` hides them from the loop's invariant
    for i in 0..sheet.marks() {
        rows[i as usize] = sheet.row(i);
    }
    rows
}

impl BitTable {
    // A table with the marks and the agreement of a sheet.
    pub fn copy_of<S: Sheet>(sheet: &S) -> BitTable
        ensures marks { (bit_meaning result).marks ≡ (S.Sheet.meaning sheet.now).marks }
        ensures agrees { (bit_meaning result).agrees ≡ (S.Sheet.meaning sheet.now).agrees }
    {
        BitTable {
            rows: rows_of(sheet),
            marks: sheet.marks(),
        }
    }
}
