// The goals by their numbers, for callers that have no enums.
ghost use Rattle.table.specs.Goals.{GoalOf};

use crate::Goal;

// What is no goal's number.
#[derive(Clone, Copy)]
pub struct UnknownGoal(pub u64);

impl TryFrom<u64> for Goal {
    type Error = UnknownGoal;

    ghost try_from_gives = { GoalOf };

    fn try_from(number: u64) -> Result<Goal, UnknownGoal> {
        match number {
            0 => Ok(Goal::Detect),
            1 => Ok(Goal::Diagnose),
            _ => Err(UnknownGoal(number)),
        }
    }
}
