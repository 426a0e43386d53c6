// A table and a set that a call is given, and what a call that writes its answer to a lent buffer promises.
#![tactic(auto)]

mod given;
pub mod inner;

pub use given::Given;
