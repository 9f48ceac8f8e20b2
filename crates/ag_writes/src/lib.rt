//! The writes of an event: what performing them batch by batch leaves, where the event's order stops it or has a call fail.
#![tactic(auto)]

mod execute;
mod home;
pub mod laws;
mod order;
mod reach;
mod writes;

pub use execute::perform;
pub use home::Keeps;
pub use order::{Order, order_of};
pub use reach::{Reach, answer_with};
pub use writes::{Batch, MasterWords, Write};
