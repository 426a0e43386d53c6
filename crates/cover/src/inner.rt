// The masks of a goal, and the tests weighed by them, for the crates above.
ghost use Rattle.std.specs.Prelude.{◌≡◌, ◌≤◌};
ghost use Rattle.sets.specs.Collect.{set_of};
ghost use Rattle.cover.specs.Masks.{masks_of};
ghost use Rattle.cover.specs.Kept.{kept};

use crate::weigh::Masks;
use arrayvec::ArrayVec;
use table::{Fitting, Goal};

// The masks of the goal's pairs that count, in rising order of the pairs, lower column first.
pub fn masks_of(table: &Fitting, goal: Goal) -> ArrayVec<u32, 1830>
    ensures { result.items ≡ masks_of table.now.table goal }
{
    // A copy, by which the compiler knows that what is pushed does not change the table, and tests the number of tests once.
    let table = *table;
    let mut masks = ArrayVec::new();
    for a in 0..table.columns() {
        crate::pairs::push_row(&mut masks, &table, goal, a);
    }
    masks
}

// The tests that are not set aside.
pub fn kept_tests(masks: &[u32], tests: usize) -> u32
    requires { tests ≤ 24 }
    ensures { result ≡ set_of (kept masks.now tests) tests }
{
    Masks { masks, tests }.kept()
}
