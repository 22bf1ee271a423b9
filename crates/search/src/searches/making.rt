// Making a search.
ghost use Rattle.std.specs.Prelude.{◌≡◌, ◌≤◌, length, None};
ghost use Rattle.coprune.specs.Answers.{pair_places};
ghost use Rattle.search.specs.Starting.{Starts, opening};
ghost use Rattle.search.specs.View.{opened};
ghost use Rattle.search.specs.Making.{Making, Spaces};

use super::Search;
use crate::refusal::MakeRefusal;
use branch::branches::Branch;
use coprune::look::Pair;
use coprune::prune::{co_prune, pair_places};
use first::group::first_group;
use held::group::Held;
use marks::set::MarkSet;
use rule::rules::CeilingRule;
use sheet::kinds::Sheet;
use tables::bits::BitTable;

// The table of branches with this one open, or with none, and how many are open. A function, so that its caller is told what
// is open and not what each of 129 places holds.
fn table_of(branch: Option<Branch>) -> ([Branch; 129], usize)
    ensures { opened result.0 result.1 ≡ opening branch }
{
    let none = Branch {
        chosen: [0; 4],
        candidates: [0; 4],
    };
    ([branch.unwrap_or(none); 129], usize::from(branch.is_some()))
}

impl<R: CeilingRule> Search<R> {
    // A search for a largest k-plex of a sheet, with the first group held. What waits while agreements are struck waits
    // in the spaces.
    pub fn make<S: Sheet>(
        sheet: &S,
        k: u32,
        rule: R,
        mark_space: &mut [u32],
        pair_space: &mut [Pair],
    ) -> Result<Search<R>, MakeRefusal>
        ensures makes { Making R.CeilingRule.number (S.Sheet.meaning sheet.now) k rule (length mark_space.old) (length pair_space.old) result }
        ensures spaces { Spaces R.CeilingRule.number result mark_space.old mark_space.new pair_space.old pair_space.new }
    {
        if !(1..=16).contains(&k) {
            return Err(MakeRefusal::KOutOfRange);
        }
        if mark_space.len() < sheet.marks() as usize {
            return Err(MakeRefusal::TooFewMarkPlaces);
        }
        if pair_space.len() < pair_places(sheet) as usize {
            return Err(MakeRefusal::TooFewPairPlaces);
        }
        let Start {
            top,
            sheet,
            table,
            held,
            first_branch,
        } = first_state(sheet, k, mark_space, pair_space);
        let (branches, count) = table_of(first_branch);
        Ok(Search {
            rule,
            k,
            top,
            taken: 0,
            sheet,
            table,
            held,
            branches,
            count,
        })
    }
}

// What a search starts with.
#[derive(Clone, Copy)]
pub(crate) struct Start {
    top: u32,
    sheet: BitTable,
    table: BitTable,
    held: Held,
    // the branch that is opened, if one is
    first_branch: Option<Branch>,
}

// Copies the sheet, finds the first group, and opens a branch if a larger one is not ruled out.
fn first_state<S: Sheet>(
    sheet: &S,
    k: u32,
    mark_space: &mut [u32],
    pair_space: &mut [Pair],
) -> Start
    requires low { 1 ≤ k }
    requires high { k ≤ 16 }
    requires marks { (S.Sheet.meaning sheet.now).marks ≤ length mark_space.old }
    requires pairs { pair_places (S.Sheet.meaning sheet.now) ≤ length pair_space.old }
    ensures made { Starts (S.Sheet.meaning sheet.now) k result }
    ensures idle { result.first_branch ≡ None → (mark_space.new ≡ mark_space.old) × (pair_space.new ≡ pair_space.old) }
{
    let copy = BitTable::copy_of(sheet);
    let first = first_group(&copy, k);
    let floor = first.group.count();
    let mut table = copy;
    let mut first_branch = None;
    if floor < first.top {
        let mut left = MarkSet::empty();
        co_prune(&mut table, k, floor, &mut left, mark_space, pair_space).unwrap();
        first_branch = Some(Branch {
            chosen: [0; 4],
            candidates: left.words(),
        });
    }
    Start {
        top: first.top,
        sheet: copy,
        table,
        held: Held::of(first.group),
        first_branch,
    }
}
