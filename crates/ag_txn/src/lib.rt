//! The open transactions and the buffer of a primary.
#![tactic(auto)]

mod copies;
mod fault;
pub mod laws;
mod listed;
mod opened;
mod order;
mod pages;
mod room;
mod sizes;
mod trimming;
mod txns;
mod versions;

pub use fault::TxnFault;
pub use opened::OpenTxn;
pub use txns::Txns;
