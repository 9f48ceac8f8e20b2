//! Log records as bytes.
#![tactic(auto)]

mod decoding;
mod encoding;
mod fault;
pub mod laws;
mod lists;
mod numbers;

pub use decoding::decode;
pub use encoding::{encode, size};
pub use fault::RecordFault;
pub use lists::{decode_all, encode_all};
pub use numbers::{put_u16, put_u32, put_u64, u16_at, u32_at, u64_at};
