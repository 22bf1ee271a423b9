// What is known of a chosen mark.
ghost use Rattle.std.specs.Prelude.{◌≡◌, ◌+◌, ◌-◌, ◌≤◌};

#[derive(Clone, Copy)]
pub(crate) struct Room {
    // how many more marks it may miss
    pub(crate) spare: u32,
    // how many candidates agree with it
    pub(crate) near: u32,
    ghost few: { spare ≤ 16 },
    ghost marks: { near ≤ 128 },
}

impl Room {
    // What two marks add to the chosen marks at the least: of so many candidates, those that agree with the one and those
    // that agree with the other have some in common where together they are more.
    pub(crate) fn at_least(self, other: Room, candidates: u32) -> u32
        ensures { result ≡ self.spare + other.spare + (self.near + other.near - candidates) }
    {
        self.spare + other.spare + (self.near + other.near).saturating_sub(candidates)
    }
}
