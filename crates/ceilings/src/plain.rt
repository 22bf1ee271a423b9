// The rules by a plain computation, mark by mark.
use trials::agreed::Agreed;

// What a rule is asked about marks below twelve, of which a mask of bits says which are chosen, and one which are
// candidates.
#[derive(Clone, Copy)]
pub struct Asked<'a> {
    pub agreed: &'a Agreed<12>,
    pub k: u32,
    pub chosen: u32,
    pub candidates: u32,
}

// Whether a mask of bits has a mark.
fn has(mask: u32, mark: u32) -> bool {
    (mask >> mark.min(31)) & 1 == 1
}

// How many marks pass a test. Not by `filter` and `count`, which take more than twice as long (see `prunings`).
fn count<F: Fn(u32) -> bool>(test: F) -> usize
    requires { F.IsAlwaysCallable test }
{
    (0..12)
        .map(|mark| usize::from(test(mark)))
        .fold(0, usize::saturating_add)
}

impl Asked<'_> {
    fn is_chosen(&self, u: u32) -> bool {
        has(self.chosen, u)
    }

    // Whether u is a candidate that is not chosen.
    fn is_other(&self, u: u32) -> bool {
        has(self.candidates, u) && !self.is_chosen(u)
    }

    // How many chosen marks there are.
    fn size(&self) -> usize {
        count(|u| self.is_chosen(u))
    }

    // How many marks there are, chosen or other: the number of a rule that does not apply.
    pub fn all(&self) -> usize {
        count(|u| self.is_chosen(u) || self.is_other(u))
    }

    // How many chosen marks agree with u.
    fn near(&self, u: u32) -> usize {
        count(|v| self.is_chosen(v) && self.agreed.has(u, v))
    }

    // How many of the others agree with u.
    fn others_near(&self, u: u32) -> usize {
        count(|v| self.is_other(v) && self.agreed.has(u, v))
    }

    // How many of the others agree with both u and v.
    fn others_near_both(&self, u: u32, v: u32) -> usize {
        count(|w| self.is_other(w) && self.agreed.has(u, w) && self.agreed.has(v, w))
    }

    // Whether the rules apply: k is from 1 to 16, and each chosen mark agrees with at least all but k of them.
    pub fn applies(&self) -> bool {
        let least = self.size().saturating_sub(self.k as usize);
        1 <= self.k && self.k <= 16 && (0..12).all(|u| !self.is_chosen(u) || self.near(u) >= least)
    }

    // What u may still miss of so many chosen marks.
    fn spare(&self, size: usize, u: u32) -> usize {
        let missed = size.saturating_sub(self.near(u));
        (self.k as usize).saturating_sub(missed)
    }

    // The degree rule's number where it applies: the lowest that it gives, or all marks if it gives none.
    pub fn by_degree(&self) -> usize {
        let numbers = (0..12).filter(|u| self.is_chosen(*u)).map(|u| {
            (self.k as usize)
                .saturating_add(self.near(u))
                .saturating_add(self.others_near(u))
        });
        numbers.min().unwrap_or(self.all())
    }

    // The pair rule's number, likewise.
    pub fn by_pair(&self) -> usize {
        let size = self.size();
        let numbers = (0..12)
            .filter(|u| self.is_chosen(*u))
            .filter_map(|u| self.by_pairs_with(size, u));
        numbers.min().unwrap_or(self.all())
    }

    // The lowest number that the pair rule gives for u and another of so many chosen marks.
    fn by_pairs_with(&self, size: usize, u: u32) -> Option<usize> {
        let own = size.saturating_add(self.spare(size, u));
        (0..12)
            .filter(|v| self.is_chosen(*v) && *v != u)
            .map(|v| {
                own.saturating_add(self.spare(size, v))
                    .saturating_add(self.others_near_both(u, v))
            })
            .min()
    }
}
