//! The lines of a transcript as text.
#![tactic(auto)]

pub mod answer;
pub mod header;
mod refusal;
mod text;
mod words;
