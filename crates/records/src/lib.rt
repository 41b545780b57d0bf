// Vocabulary records: the vocabulary check, the record call, and what the crates above read of a vocabulary.
#![tactic(auto)]

pub mod atoms;
mod call;
pub mod chain;
mod check;
pub mod fields;
pub mod kinds;
pub mod layout;
pub mod refusals;

pub use call::{find_record, record};
pub use check::{check_new_record, check_vocabulary};
