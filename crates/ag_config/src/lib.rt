//! The head of a scenario: a TOML document with the keys `pages`, `replicas`, `workers` and `readers`, each with a default.
#![tactic(auto)]

mod fault;
mod head;
pub mod laws;
mod values;

pub use fault::{ConfigFault, ConfigKey};
pub use head::read_config;
