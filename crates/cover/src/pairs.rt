// The masks of pairs of columns.
ghost use Rattle.std.specs.Prelude.{◌≡◌, ◌+◌, ◌-◌, ◌≤◌, ◌<◌, ◌++◌};
ghost use Rattle.arrayvec.specs.ArrayVec.{array_vec_len};
ghost use Rattle.table.specs.Table.{output_at, columns};
ghost use Rattle.cover.specs.Masks.{differs, mask_of, goal_pair, goal_mask, mask_row};

use arrayvec::ArrayVec;
use table::{Fitting, Goal};

// Whether test t separates the columns a and b.
#[tactic(auto, unfolding(crate::specs::Masks::differs, terms::specs::Columns::agrees))]
fn differs(table: &Fitting, a: usize, b: usize, t: usize) -> bool
    requires { (t < 24) × (a < 61) × (b < 61) }
    ensures { result ≡ differs (output_at table.now.table) a b t }
{
    table.output(t, a) != table.output(t, b)
}

// The tests that separate the columns a and b.
#[tactic(auto, unfolding(crate::specs::Masks::mask_of))]
fn mask_of(table: &Fitting, a: usize, b: usize) -> u32
    requires { (a < 61) × (b < 61) }
    ensures { result ≡ mask_of (output_at table.now.table) table.now.table.tests a b }
{
    sets::inner::set_of(table.tests(), |t| differs(table, a, b, t)) as u32
}

// Whether the columns a and b, a the lower, are a pair of the goal.
#[tactic(auto, unfolding(crate::specs::Masks::goal_pair))]
fn goal_pair(goal: Goal, a: usize, b: usize) -> bool
    ensures { result ≡ goal_pair goal a b }
{
    match goal {
        Goal::Detect => a < b && a == 0,
        Goal::Diagnose => a < b,
    }
}

// The tests that separate the columns a and b, where they are a pair of the goal; else none.
#[tactic(auto, unfolding(crate::specs::Masks::goal_mask))]
fn goal_mask(table: &Fitting, goal: Goal, a: usize, b: usize) -> u32
    requires { (a < 61) × (b < 61) }
    ensures { result ≡ goal_mask (output_at table.now.table) table.now.table.tests goal a b }
{
    if goal_pair(goal, a, b) {
        mask_of(table, a, b)
    } else {
        0
    }
}

// Appends the masks of the goal's pairs with the lower column a that count.
pub fn push_row(masks: &mut ArrayVec<u32, 1830>, table: &Fitting, goal: Goal, a: usize)
    requires { (a < columns table.now.table) × (array_vec_len masks.old + (columns table.now.table - (a + 1)) ≤ 1830) }
    ensures { masks.new.items ≡ masks.old.items ++ mask_row (output_at table.now.table) table.now.table.tests goal (columns table.now.table) a }
{
    for b in 0..table.columns() {
        let mask = goal_mask(table, goal, a, b);
        if mask != 0 {
            masks.push(mask);
        }
    }
}
