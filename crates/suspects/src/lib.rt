// The suspects: the columns whose signature under a set of tests equals the observed outputs.
#![tactic(auto)]

ghost use Rattle.std.specs.Prelude.{◌≡◌};
ghost use Rattle.suspects.specs.Suspects.{suspects_of};

use compare::Observed;
use lent::Given;
use table::{Refusal, Suspects, Table};

mod compare;

// The suspects of a table for observed outputs, one for each test of the set.
#[tactic(auto, unfolding(crate::specs::Suspects::suspects_of))]
pub fn suspects_of(table: Table, set: u32, outputs: &[u8]) -> Result<Suspects, Refusal>
    ensures { result ≡ suspects_of table set outputs.now }
{
    let given = Given::of(table, set)?;
    if outputs.len() != given.size() {
        return Err(Refusal::NotOneEach);
    }
    let observed = Observed {
        given: &given,
        outputs,
    };
    Ok(observed.suspects())
}
