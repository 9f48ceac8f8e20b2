//! The master: one sector that says what a replica is.
#![tactic(auto)]

mod master;
mod sector;
mod store;

pub use master::Master;
pub use sector::Loaded;
pub use store::{MasterFault, load, save};

#[cfg(test)]
mod tests;
