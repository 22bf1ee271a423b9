// The group that a search holds.
ghost use Rattle.std.specs.Prelude.{◌≡◌, take};
ghost use Rattle.plex.specs.Sets.{rising};
ghost use Rattle.plex.specs.Words.{holds};

use marks::set::MarkSet;

// A group as a set, and its marks, rising, in the first places; what stands behind them is not read. Copying out copies
// from the array, and no memory is asked for.
#[derive(Clone, Copy)]
pub struct Held {
    marks: [u32; 128],
    set: MarkSet,
    ghost listed: { take set.count marks ≡ rising 128 (holds set.words) },
}

pub mod parts;
pub mod places;
