//! Events as lines of a script.
#![tactic(auto)]

pub mod event;
pub mod laws;
mod shapes;
mod text;
