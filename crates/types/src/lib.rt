// Types: truth at a type, type elimination, and the comparison of two terms.
#![tactic(auto)]

pub mod answers;
mod bitmap;
mod call;
mod decode;
mod eliminate;
mod remaining;
mod restrict;
mod settle;
mod truth;
mod type_data;
mod vocabulary;
mod zeta;

pub use call::{check_size, check_term, compare};
pub use settle::settle_types;
pub use type_data::TypeData;
pub use vocabulary::SmallVocabulary;
