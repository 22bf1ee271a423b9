// Which of at most N marks agree, noted pair by pair.
ghost use Rattle.std.specs.Prelude.{◌≡◌, ℕ, ◌<◌, false, replicate};
ghost use Rattle.trials.specs.Drawn.{drawn, draws_below, by_chance};
ghost use Rattle.trials.specs.Noted.{noted, on_ring, RowNoted, Notes};

use crate::chance::Chance;

// Writes one place of a row.
fn note<const N: usize>(row: &mut [bool; N], at: usize, to: bool)
    requires { at < N }
    ensures { RowNoted row.old at to row.new }
{
    row[at] = to;
}

#[derive(Clone, Copy)]
pub struct Agreed<const N: usize> {
    agrees: [[bool; N]; N],
}

impl<const N: usize> Agreed<N> {
    pub fn none() -> Agreed<N>
        ensures { result.agrees ≡ replicate N (replicate N false) }
    {
        Agreed {
            agrees: [[false; N]; N],
        }
    }

    // A ring: each of so many marks agrees with the next, and the last with the first.
    pub fn ring(marks: u32) -> Agreed<N>
        ensures { (p q : ℕ) → noted result.agrees p q ≡ on_ring N marks p q }
    {
        let mut ring = Agreed::none();
        for i in 0..marks {
            ring.set(i, (i + 1) % marks, true);
        }
        ring
    }

    // Each pair of so many marks agrees in so many tenths of all cases. For a mark with itself a number is drawn too,
    // which sets nothing: the stored outputs of the programs were made so.
    pub fn by_chance(marks: u32, tenths: u32, chance: &mut Chance) -> Agreed<N>
        ensures draws { chance.new.state ≡ drawn (draws_below marks marks) chance.old.state }
        ensures agreement { (p q : ℕ) → noted result.agrees p q ≡ by_chance N marks tenths chance.old.state p q }
    {
        let mut agreed = Agreed::none();
        for i in 0..marks {
            for j in i..marks {
                let agree = chance.in_tenths(tenths);
                agreed.set(i, j, agree);
            }
        }
        agreed
    }

    // Sets whether two different marks agree.
    pub fn set(&mut self, i: u32, j: u32, to: bool)
        ensures { Notes N self.old.agrees i j to self.new.agrees }
    {
        let i = i as usize;
        let j = j as usize;
        if i < N && j < N && i != j {
            note(&mut self.agrees[i], j, to);
            note(&mut self.agrees[j], i, to);
        }
    }

    // Whether two marks agree.
    pub fn has(&self, i: u32, j: u32) -> bool
        ensures { result ≡ noted self.now.agrees i j }
    {
        match self.agrees.get(i as usize) {
            Some(row) => row.get(j as usize).copied().unwrap_or(false),
            None => false,
        }
    }
}
