//! The data pages of a replica, in 16 stripes over the images on one disk.
#![tactic(auto)]

mod asking;
mod flush;
mod lending;
mod lent;
mod pages;
mod pending;
mod places;
mod redoing;

pub use flush::FlushFault;
pub use pages::Pages;
