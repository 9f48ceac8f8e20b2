//! What a primary knows of its secondaries.
#![tactic(auto)]

mod ack;
mod blocks;
mod capture;
pub mod laws;
mod peer;

pub use ack::{Kind, NotYet};
pub use capture::Capture;
