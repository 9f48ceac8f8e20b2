//! A shared redo front: sixteen published LSNs, sixteen stripes and a log in one table, for threads that
//! redo and read one secondary.
#![tactic(auto)]

pub mod apply;
pub mod close;
pub mod dispatch;
pub mod fault;
pub mod front;
pub mod history;
pub mod laws;
pub mod open;
pub mod passes;
pub mod plays;
pub mod read;
pub mod rule;
pub mod shared;
pub mod view;
