// Numbers that look like chance; from the same seed come the same numbers.
ghost use Rattle.std.specs.Prelude.{◌≡◌, ◌↔◌, ◌/◌, ◌%◌, ◌<◌, IsTrue, Some};
ghost use Rattle.trials.specs.Following.{following};

#[derive(Clone, Copy)]
pub struct Chance {
    state: u32,
}

impl Chance {
    pub fn from_seed(seed: u32) -> Chance
        ensures { result.state ≡ seed }
    {
        Chance { state: seed }
    }

    // Whether something comes true that does in so many tenths of all cases.
    pub fn in_tenths(&mut self, tenths: u32) -> bool
        ensures next { self.new.state ≡ following self.old.state }
        ensures answer { IsTrue result ↔ self.new.state / 65536 % 10 < tenths }
    {
        (self.next().unwrap() >> 16) % 10 < tenths
    }
}

impl Iterator for Chance {
    type Item = u32;

    ghost next_gives = { λ s r t. (t.state ≡ following s.state) × (r ≡ Some t.state) };

    fn next(&mut self) -> Option<u32> {
        self.state = self.state.wrapping_mul(1664525).wrapping_add(1013904223);
        Some(self.state)
    }
}
