//! What a replica keeps on its disk, its log and its master, as one value.
#![tactic(auto)]

mod appending;
mod fault;
pub mod laws;
mod opening;
mod reach;
mod redo_start;
mod starting;

pub use appending::append;
pub use fault::KeptFault;
pub use opening::open;
pub use reach::{Reach, how_far};
pub use redo_start::save_redo_start;
pub use starting::{read_master, start_on};
