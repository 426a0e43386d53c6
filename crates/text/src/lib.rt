// A page, on which words and plain decimals are written one after the other.
#![tactic(auto)]

mod page;

pub use page::Page;
