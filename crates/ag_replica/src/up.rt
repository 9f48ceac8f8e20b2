//! A replica that is up.

use crate::following::Following;
use crate::leading::Leading;
use ag_durable::Durable;
use ag_outside::disk::Disk;
use ag_pool::Pool;

/// Where a replica stands: whether it is cut off from the store, whether it leads, its term, and its state, which is 0, 1, 3 or 4.
#[derive(Clone, Copy, Debug)]
pub struct Standing {
    pub cut_off: bool,
    pub leads: bool,
    pub term: u64,
    pub state: u8,
}

/// A replica that is up: its data on the disk, its pages in memory, where it stands, and what it knows as a secondary and as a primary.
#[derive(Drop)]
pub struct Up<D: Disk> {
    pub durable: Durable<D>,
    pub pool: Pool,
    pub standing: Standing,
    pub following: Following,
    pub leading: Leading,
}
