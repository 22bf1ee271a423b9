// A table of bits is a sheet, and can be struck.
ghost use Rattle.std.specs.Prelude.{◌≡◌, ◌<◌, []};
ghost use Rattle.plex.specs.Sets.{only, struck, ◌∖◌};
ghost use Rattle.plex.specs.Words.{holds};
ghost use Rattle.tables.specs.Bits.{bit_agrees};
ghost use Rattle.tables.specs.Meanings.{bit_meaning};

use super::BitTable;
use marks::set::MarkSet;
use sheet::kinds::{Sheet, Strike};

impl Sheet for BitTable {
    ghost meaning = { bit_meaning };

    fn marks(&self) -> u32 {
        self.marks
    }

    fn agree(&self, i: u32, j: u32) -> bool {
        i < 128 && MarkSet::from_words(self.rows[i as usize]).has(j)
    }

    fn row(&self, i: u32) -> [u32; 4] {
        self.rows.get(i as usize).copied().unwrap_or([0; 4])
    }
}

// Takes a mark out of a row. Not by a set of marks: that is made of the whole row, and a strike takes longer.
fn clear_bit(row: &mut [u32; 4], mark: u32)
    requires { mark < 128 }
    ensures { holds row.new ≡ holds row.old ∖ only mark }
{
    row[mark as usize / 32] &= !(1 << (mark % 32));
}

// Takes each mark of a pair out of the other's row.
fn clear_pair(rows: &mut [[u32; 4]; 128], i: u32, j: u32)
    requires { (i < 128) × (j < 128) }
    ensures { bit_agrees rows.new ≡ struck i j (bit_agrees rows.old) }
{
    clear_bit(&mut rows[i as usize], j);
    clear_bit(&mut rows[j as usize], i);
}

impl Strike for BitTable {
    ghost lasting = { λ _. [] };

    fn strike(&mut self, i: u32, j: u32) -> bool {
        if !self.agree(i, j) {
            return false;
        }
        clear_pair(&mut self.rows, i, j);
        true
    }
}
