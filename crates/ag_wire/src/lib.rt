//! Messages as bytes.
#![tactic(auto)]

mod decoding;
mod encoding;
mod fault;
mod fields;
pub mod laws;

pub use decoding::decode;
pub use encoding::encode;
pub use fault::WireFault;
