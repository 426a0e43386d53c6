// The items of a line, written one after the other on a page.
#![tactic(auto)]

pub mod inner;
