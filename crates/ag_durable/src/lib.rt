//! What a replica keeps on a disk that follows an order: every write of an event, batch by batch.
#![tactic(auto)]

mod appending;
mod durable;
mod fault;
mod fetching;
mod formatting;
mod noting;
mod opening;
mod paging;
mod progress;
mod reaching;
mod saving;
mod syncing;

pub use durable::Durable;
pub use fault::DurableFault;
pub use progress::{Came, Progress};
