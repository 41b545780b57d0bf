// The taxonomy of a vocabulary's names: which are equal, and which are nearest among the broader ones.
#![tactic(auto)]

mod call;
mod meets;
mod names;
mod table;

pub use call::classify;
