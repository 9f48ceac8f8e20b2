//! The grammar of scripts: reading event lines, exact both ways.
#![tactic(auto)]

mod built;
mod disk_lines;
pub mod fault;
mod find;
pub mod laws;
mod line;
mod log_lines;
mod look_lines;
mod member_lines;
mod pairs;
pub mod script;
mod transaction_lines;
mod word;
mod words;
