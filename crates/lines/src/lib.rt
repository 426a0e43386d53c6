// The lines of the text that pick prints, written one after the other on a page.
#![tactic(auto)]

pub mod inner;
