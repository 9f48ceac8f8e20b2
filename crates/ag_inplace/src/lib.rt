//! The image of a page, edited and read in place, without memory.
#![tactic(auto)]

mod directory;
mod entries;
mod header;
mod keeping;
pub mod laws;
mod moving;
mod parts;
mod putting;
mod rows;
mod stamping;
mod trimming;

pub use keeping::abort_in;
pub use putting::{PageFull, put_in};
pub use rows::row_in;
pub use stamping::stamp_in;
pub use trimming::trim_in;
