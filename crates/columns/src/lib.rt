// Columns: the columns of each owner, at given terms.
#![tactic(auto)]

pub mod column;
mod group;
mod literal;
pub mod query;
pub mod vocabulary;
