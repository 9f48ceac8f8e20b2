//! Which pages are asked for, who gives them, and what is done with one that comes.
#![tactic(auto)]

pub mod laws;
mod repair;

pub use repair::{Arrival, Giving, arrives, may_give, wanted};
