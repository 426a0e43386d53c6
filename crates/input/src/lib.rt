// Reads an input into a lent buffer.
#![tactic(auto)]

pub mod inner;
