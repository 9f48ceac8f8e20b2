//! What memory has of a replica's pages: the values that were read in, how each page stands, and how far each stripe has redone.
#![tactic(auto)]

mod fault;
mod frame;
pub mod laws;
mod pool;
mod redoing;

pub use fault::PoolFault;
pub use frame::{Frame, Held, StripeLsns};
pub use pool::Pool;
