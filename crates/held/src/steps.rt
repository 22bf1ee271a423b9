// How many steps are left, capped at the largest 32-bit number.
ghost use Rattle.std.specs.Prelude.{◌≡◌, ◌+◌};
ghost use Rattle.searching.specs.States.{steps_for, capped};

// No branch has more candidates.
const MOST: u32 = 128;

// How many steps a branch with so many candidates can take, with all branches that come of it. It calls itself on one
// candidate fewer, as the rules define it. From 31 candidates on it is the cap; more than a branch can have are not counted
// down one by one.
pub fn steps_for(candidates: u32) -> u32
    ensures { result ≡ capped (steps_for candidates) }
{
    if candidates > MOST {
        return u32::MAX;
    }
    if candidates == 0 {
        return 1;
    }
    steps_for(candidates - 1)
        .saturating_mul(2)
        .saturating_add(1)
}

// The sum of two such counts.
pub fn add_capped(a: u32, b: u32) -> u32
    ensures { result ≡ capped (a + b) }
{
    a.saturating_add(b)
}
