// Classes of columns that no test separates, and the undetectable faults.
#![tactic(auto)]

ghost use Rattle.std.specs.Prelude.{◌≡◌};
ghost use Rattle.classes.specs.Classes.{classes_of};
ghost use Rattle.classes.specs.Undetectable.{UndetectableIn};

use table::{Classes, Fitting, Refusal, Table};

mod columns;
pub mod inner;

// The class number of each column.
#[tactic(auto, unfolding(crate::specs::Classes::classes_of))]
pub fn classify(table: Table) -> Result<Classes, Refusal>
    ensures { result ≡ classes_of table }
{
    Ok(columns::numbered(&Fitting::of(table)?))
}

// The faults that no test separates from the healthy card.
pub fn undetectable(table: Table) -> Result<u64, Refusal>
    ensures { UndetectableIn table result }
{
    Ok(columns::undetected_set(&Fitting::of(table)?))
}
