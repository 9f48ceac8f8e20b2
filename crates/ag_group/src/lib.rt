//! The group: its nodes, the links between them, the store and the sessions.
#![tactic(auto)]

mod events;
pub mod fault;
pub mod group;
mod links;
mod members;
mod opening;
pub mod play;
pub mod run;
pub mod status;
mod words;
