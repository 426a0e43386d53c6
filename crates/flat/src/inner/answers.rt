// Answers as one number, goals and caps as numbers.
ghost use Rattle.std.specs.Prelude.{◌≡◌, ◌≤◌, ◌<◌};
ghost use Rattle.table.specs.Answers.{number_of, answer_number, answer_value};
ghost use Rattle.flat.specs.Packed.{packed, value_limit, goal_of, cap_of, unknown_goal};

use table::{Fitting, Goal, Refusal, Table};

// 99, after 20: a number of the C interface alone.
#[tactic(auto, unfolding(crate::specs::Packed::unknown_goal, crate::specs::Packed::packed))]
pub fn unknown_goal(table: Table) -> u64
    ensures { result ≡ unknown_goal table }
{
    match Fitting::of(table) {
        Ok(_) => 99,
        Err(why) => packed(Err(why)),
    }
}

// 0 is detect, every other number diagnose: for callers that know the number for a goal's.
#[tactic(auto, unfolding(crate::specs::Packed::goal_of))]
pub fn goal_of(goal: u64) -> Goal
    ensures { result ≡ goal_of goal }
{
    Goal::try_from(goal).unwrap_or(Goal::Diagnose)
}

// Every cap above 24 is too high, as 25 is. The C interface gives a number.
#[tactic(auto, unfolding(crate::specs::Packed::cap_of))]
pub fn cap_of(cap: u64) -> u32
    ensures { result ≡ cap_of cap }
{
    if cap > 24 { 25 } else { cap as u32 }
}

#[tactic(auto, unfolding(crate::specs::Packed::packed))]
pub fn packed(answer: Result<usize, Refusal>) -> u64
    requires { answer_value answer < value_limit }
    ensures { result ≡ packed (answer_number answer) (answer_value answer) }
{
    match answer {
        Ok(value) => value as u64 * 256,
        Err(why) => u64::from(table::number(why)),
    }
}

// The same for a set of tests, whose 32 bits always fit.
pub fn of_chosen(answer: Result<u32, Refusal>) -> u64
    ensures { result ≡ packed (answer_number answer) (answer_value answer) }
{
    packed(answer.map(|set| set as usize))
}

// The number of a refusal, with the place.
#[tactic(auto, unfolding(crate::specs::Packed::packed))]
pub fn at_place(why: Refusal, place: usize) -> u64
    requires { place ≤ 5991 }
    ensures { result ≡ packed (number_of why) place }
{
    u64::from(table::number(why)) + place as u64 * 256
}
