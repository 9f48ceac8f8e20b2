//! The suspect list: the pages of a replica that were found bad, in memory and in sectors 1 to 63 of its disk.
#![tactic(auto)]

mod fault;
pub mod laws;
mod reading;
mod row;
mod saving;
mod suspects;

pub use fault::SuspectFault;
pub use suspects::{Suspects, load};
