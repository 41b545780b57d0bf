// Scripts: the form of a script, the machine, and the script check.
#![tactic(auto)]

mod call;
mod entry;
mod form;
mod index;
mod machine;
mod run;

pub use call::check_script;
