//! Messages in flight, as bytes.
#![tactic(auto)]

mod fault;
mod link;
#[cfg(test)]
mod tests;

pub use fault::LinkFault;
pub use link::{Link, MessageBytes};
