//! The images of pages on a disk: read with what is wrong with them, and written in batches with the next mark.
#![tactic(auto)]

mod batch;
mod fault;
pub mod laws;
mod marks;
mod reading;
mod sectors;
mod store;

pub use batch::{PageWrite, write_batch};
pub use fault::{PageReadFault, PageWriteFault};
pub use reading::{read, read_cells};
pub use store::PageStore;
