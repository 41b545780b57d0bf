// The vocabulary writer: an empty vocabulary, terms and statements, in a lent buffer.
#![tactic(auto)]

mod call;
mod check;

pub use call::{add_statement, add_term, make_vocabulary};
