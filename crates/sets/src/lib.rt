// Sets of tests, and of columns and faults, as numbers: bit t stands for test t.
#![tactic(auto)]

pub mod inner;
