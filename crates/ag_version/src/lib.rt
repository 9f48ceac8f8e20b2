//! The value of a page, edited record by record, and the row that it has at a snapshot.
#![tactic(auto)]

mod edits;
mod fault;
pub mod laws;
mod order;
mod rows;
mod trimming;

pub use edits::{abort, put, stamp};
pub use fault::PutFault;
pub use rows::row_at;
pub use trimming::trim;
