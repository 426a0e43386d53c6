// A table with one more test, fault or response.
#![tactic(auto)]

pub mod inner;
