// A set of marks below 128.
ghost use Rattle.std.specs.Prelude.{◌≡◌};
ghost use Rattle.plex.specs.Sets.{card};
ghost use Rattle.plex.specs.Words.{holds};

// Bit b of word w stands for mark 32w + b.
#[derive(Clone, Copy)]
pub struct MarkSet {
    words: [u32; 4],
    count: u32,
    ghost counted: { count ≡ card 128 (holds words) },
}

pub mod algebra;
pub mod iter;
pub mod parts;
