//! One replica: what each event does there.
#![tactic(auto)]

pub mod fault;
mod home;
mod listed;
pub mod node;
pub mod opening;
mod peer;
mod published;
mod room;
pub mod site;
mod txns;
