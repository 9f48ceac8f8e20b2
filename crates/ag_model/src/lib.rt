//! The plain data of an availability group, and what speaks of logs alone.
#![tactic(auto)]

pub mod answer;
pub mod config;
pub mod event;
pub mod laws;
pub mod list;
pub mod message;
pub mod page;
pub mod page_set;
pub mod record;
pub mod stands;
pub mod value;
