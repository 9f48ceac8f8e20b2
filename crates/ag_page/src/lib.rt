//! The image of a page on the disk: 16 sectors, each with 511 bytes of the page and a mark.
#![tactic(auto)]

mod fault;
mod fitting;
mod home;
mod image;
pub mod laws;
mod reading;
mod writing;

pub use fault::PageFault;
pub use fitting::fits;
pub use home::{Got, HomeError, PageHome};
pub use image::{Image, marks};
pub use reading::from_image;
pub use writing::to_image;
