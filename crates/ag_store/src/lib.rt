//! What a replica keeps, as one value: its log, its master and the images of its pages on its disk, and, while it is up, its
//! log and its pages in memory.
#![tactic(auto)]

mod fault;
mod flushing;
mod memory;
mod reading;
mod redoing;
mod starting;
mod store;

pub use fault::ReadFault;
pub use flushing::flush_pages;
pub use store::Store;
