// Which tests separate the pairs of a goal; the tests that a goal sets aside, and the essential ones.
#![tactic(auto)]

ghost use Rattle.std.specs.Prelude.{◌≡◌};
ghost use Rattle.cover.specs.Answer.{kept_set, lone_set, Gives, AsideTest};
ghost use Rattle.terms.specs.Terms.{Essential};

use table::{Fitting, Goal, Refusal, Table};
use weigh::Masks;

pub mod inner;
mod pairs;
mod weigh;

// The tests that are kept for the goal.
#[tactic(auto, unfolding(crate::specs::Answer::kept_set))]
fn kept_for(table: &Fitting, goal: Goal) -> u32
    ensures { result ≡ kept_set table.now.table goal }
{
    let masks = inner::masks_of(table, goal);
    inner::kept_tests(&masks, table.tests())
}

// The kept tests that alone separate some fault from column 0.
#[tactic(auto, unfolding(crate::specs::Answer::lone_set))]
fn lone_for(table: &Fitting, kept: u32) -> u32
    ensures { result ≡ lone_set table.now.table kept }
{
    let masks = inner::masks_of(table, Goal::Detect);
    Masks {
        masks: &masks,
        tests: table.tests(),
    }
    .lone_tests(kept)
}

// The tests that are set aside for the goal.
pub fn set_aside(table: Table, goal: Goal) -> Result<u32, Refusal>
    ensures { Gives table (AsideTest table goal) result }
{
    let table = Fitting::of(table)?;
    Ok((1 << table.tests()) - 1 - kept_for(&table, goal))
}

// The essential tests for the goal.
pub fn essential(table: Table, goal: Goal) -> Result<u32, Refusal>
    ensures { Gives table (Essential table goal) result }
{
    let table = Fitting::of(table)?;
    Ok(lone_for(&table, kept_for(&table, goal)))
}
