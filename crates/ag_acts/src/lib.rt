//! What an event at one replica tells that replica to do, apart from where it happens and what cuts it short.
#![tactic(auto)]

pub mod act;
mod families;
pub mod laws;
pub mod told;
