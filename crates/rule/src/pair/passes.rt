// The passes over the chosen marks.
ghost use Rattle.std.specs.Prelude.{◌≡◌, ◌<◌, ◌≤◌, true};
ghost use Rattle.plex.specs.Sets.{card, ◌⊆◌};
ghost use Rattle.ceiling.specs.Formulas.{by_pair};
ghost use Rattle.ceiling.specs.Laws.{SmallestOfTwo};
ghost use Rattle.marks.specs.Members.{members};
ghost use Rattle.rule.specs.Questions.{Finds};
ghost use Rattle.rule.specs.Passes.{Lowered};
ghost use Rattle.rule.specs.Rooms.{number_of_two, Roomy, FindsRooms};

use super::room::Room;
use crate::asked::Asked;
use crate::rules::in_range;
use marks::set::iter::Rising;
use sheet::kinds::neighbours;

impl Asked<'_> {
    // The smallest number of two chosen marks; none where the rule does not apply.
    pub(crate) fn smallest_pair(self) -> Option<u32>
        ensures { Finds by_pair self.entry result }
    {
        if !in_range(self.k) || self.chosen.count() < 2 {
            return None;
        }
        let rooms = self.rooms()?;
        Some(self.smallest(&rooms))
    }

    // What is known of each chosen mark, in one pass over their rows; none where they are no k-plex.
    fn rooms(self) -> Option<[Room; 128]>
        requires { self.k ≤ 16 }
        ensures { FindsRooms self.entry result }
    {
        let mut rooms = [Room { spare: 0, near: 0 }; 128];
        for u in self.chosen.rising() {
            let row = neighbours(self.table, u);
            let missed = self.chosen.minus(row).count();
            if missed > self.k {
                return None;
            }
            rooms[u as usize] = Room {
                spare: self.k - missed,
                near: self.others.and(row).count(),
            };
        }
        Some(rooms)
    }

    // The smallest number of two chosen marks, each pair taken once.
    fn smallest(self, rooms: &[Room; 128]) -> u32
        requires k { self.k ≤ 16 }
        requires two { 1 < card 128 (members self.chosen) }
        requires rooms { Roomy self rooms.now }
        ensures { SmallestOfTwo (members self.entry.chosen) (number_of_two self.entry) result }
    {
        let mut smallest = u32::MAX;
        let mut later = self.chosen.rising();
        // no `for`: each mark meets those that are still to come
        while let Some(u) = later.next() {
            smallest = self.lowered(rooms, u, later, smallest);
        }
        smallest
    }

    // The smaller of a number and those of u with other chosen marks. The candidates that agree with two marks are
    // counted only where the marks' rooms do not show already that their number is no smaller.
    fn lowered(self, rooms: &[Room; 128], u: u32, partners: Rising, start: u32) -> u32
        requires chosen { members self.chosen u ≡ true }
        requires partners { members partners.rest ⊆ members self.chosen }
        requires rooms { Roomy self rooms.now }
        ensures { Lowered (members partners.rest) (number_of_two self.entry u) start result }
    {
        let near = self.others.and(neighbours(self.table, u));
        let room = rooms[u as usize];
        let mut smallest = start;
        for v in partners {
            let other = rooms[v as usize];
            if self.chosen.count() + room.at_least(other, self.others.count()) < smallest {
                let both = near.and(neighbours(self.table, v)).count();
                smallest = smallest.min(self.chosen.count() + room.spare + other.spare + both);
            }
        }
        smallest
    }
}
