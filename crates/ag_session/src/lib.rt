//! Whether a replica may answer a session.
#![tactic(auto)]

pub mod laws;
mod session;

pub use session::{SessionFault, check};
