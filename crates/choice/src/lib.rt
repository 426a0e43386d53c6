// The first of the smallest sets of tests that reach a goal.
#![tactic(auto)]

ghost use Rattle.std.specs.Prelude.{◌≡◌, ◌≤◌, length};
ghost use Rattle.std.specs.List.Sorted.{IsPermutation};
ghost use Rattle.table.specs.WellFormed.{WellFormed};
ghost use Rattle.choice.specs.Answer.{Sought, within_cap, ChoiceIs};
ghost use Rattle.choice.specs.Order.{Reordered};

use search::{Search, Weighed};
use table::{Fitting, Goal, Refusal, Table};

mod search;

// Moves the masks from `front` on that have n kept tests before the others; gives where these begin.
fn sized_first(masks: &mut [u32], kept: u32, front: usize, n: u32) -> usize
    requires { front ≤ length masks.old }
    ensures bound { result ≤ length masks.new }
    ensures permutation { IsPermutation masks.old masks.new }
{
    let mut next = front;
    for i in front..masks.len() {
        if (masks[i] & kept).count_ones() == n {
            masks.swap(next, i);
            next += 1;
        }
    }
    next
}

// Puts the masks with few kept tests first: the search is the same, and has fewer nodes. By passes that swap and not by the library's
// sort, since the order of masks of one size decides how many nodes the search has.
#[tactic(auto, using(crate::proofs::Order::reordered))]
fn few_first(masks: &mut [u32], kept: u32)
    ensures { Reordered masks.old masks.new }
{
    let mut front = 0;
    for n in 0..25 {
        front = sized_first(masks, kept, front, n);
    }
}

// What the search finds among the kept tests.
fn chosen_for(table: &Fitting, goal: Goal) -> Option<Weighed>
    requires { WellFormed table.now.table }
    ensures { Sought table.now.table goal result }
{
    let mut masks = cover::inner::masks_of(table, goal);
    let kept = cover::inner::kept_tests(&masks, table.tests());
    few_first(&mut masks, kept);
    Search {
        masks: &masks,
        kept,
    }
    .lightest()
}

// The set that was found, where it weighs no more than the cap.
fn within_cap(found: Option<Weighed>, cap: u32) -> Result<u32, Refusal>
    ensures { result ≡ within_cap found cap }
{
    match found {
        Some(found) if found.weight <= cap => Ok(found.set),
        _ => Err(Refusal::NoneWithinCap),
    }
}

// The choice for the goal, where it has no more tests than the cap.
pub fn choose(table: Table, goal: Goal, cap: u32) -> Result<u32, Refusal>
    ensures { ChoiceIs table goal cap result }
{
    let table = Fitting::of(table)?;
    if cap > 24 {
        return Err(Refusal::CapTooHigh);
    }
    within_cap(chosen_for(&table, goal), cap)
}
