// Tables lent as bytes, answers as numbers, for programs in other languages.
#![tactic(auto)]

pub mod inner;
