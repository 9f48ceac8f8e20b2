//! Frames for pages, in order of use, with room for all of them taken when they are made.
#![tactic(auto)]

mod frame;
mod frames;

pub use frames::Frames;
