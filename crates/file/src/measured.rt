// A sheet that reads a measured file where its words stand.
ghost use Rattle.std.specs.Prelude.{◌≡◌, ◌+◌, ◌^◌, ◌<◌};
ghost use Rattle.fileword.specs.Faults.{at};
ghost use Rattle.fileword.specs.Laws.{sighting_at};
ghost use Rattle.fileword.specs.Layout.{point_of};
ghost use Rattle.file.specs.Points.{meant};
ghost use Rattle.file.specs.Sheets.{alike, measured_meaning, MeasuredRead, MeasuredAccepted};

use crate::dome::Point;
use crate::dome::distance::is_close;
use crate::faults::Reading;
use crate::words::{sheet_marks, word_at};
use fileword::files::{FileRefusal, Form};
use fileword::layout::load_of;
use sheet::kinds::Sheet;
use sheet::two::two_marks;

#[derive(Clone, Copy)]
pub struct MeasuredSheet<'a> {
    words: &'a [u32],
}

impl<'a> MeasuredSheet<'a> {
    // The sheet of a measured file, which is checked first.
    pub fn read(words: &'a [u32]) -> Result<MeasuredSheet<'a>, FileRefusal>
        ensures reads { MeasuredRead words.now result }
        ensures accepts { MeasuredAccepted words.now result }
    {
        let wanted = Some(Form::Measured);
        Reading { words, wanted }.judge()?;
        Ok(MeasuredSheet { words })
    }

    // Where a mark was planned.
    fn planned(&self, mark: u32) -> Point
        ensures { meant result ≡ (sighting_at self.now.words.now mark).planned }
    {
        point_at(self.words, 2 + 4 * mark as usize)
    }

    // Where a mark was seen.
    fn seen(&self, mark: u32) -> Point
        ensures { meant result ≡ (sighting_at self.now.words.now mark).seen }
    {
        point_at(self.words, 4 + 4 * mark as usize)
    }

    // Whether two marks' planned points are as far from one another as their seen points, up to the tolerance.
    #[tactic(auto, unfolding(crate::specs::Sheets::alike))]
    fn alike(&self, i: u32, j: u32) -> bool
        ensures { result ≡ alike self.now.words.now i j }
    {
        let planned = self.planned(i).distance_squared(self.planned(j));
        let seen = self.seen(i).distance_squared(self.seen(j));
        is_close(load_of(word_at(self.words, 1)), planned, seen)
    }
}

// The point whose two words stand at a place.
fn point_at(words: &[u32], place: usize) -> Point
    requires { place < 2 ^ 35 }
    ensures { meant result ≡ point_of (at words.now place) (at words.now (place + 1)) }
{
    Point::from_words(word_at(words, place), word_at(words, place + 1))
}

impl<'a> Sheet for MeasuredSheet<'a> {
    ghost meaning = { λ s. measured_meaning s.words.now };

    fn marks(&self) -> u32 {
        sheet_marks(self.words)
    }

    fn agree(&self, i: u32, j: u32) -> bool {
        // not by `is_some_and`: nothing would be known of what its closure answers, since the sheet borrows
        match two_marks(self.marks(), i, j) {
            Some((a, b)) => self.alike(a, b),
            None => false,
        }
    }
}
