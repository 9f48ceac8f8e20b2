//! Values and changes.
use ag_model::value::{Change, Value};

/// A value of so many bytes, at most 64, which are all the same.
pub fn value(len: u64, byte: u8) -> Value {
    let mut bytes = [0; 64];
    let mut count = 0u8;
    for slot in bytes.iter_mut() {
        if u64::from(count) < len {
            *slot = byte;
            count = count.saturating_add(1);
        }
    }
    Value { len: count, bytes }
}

/// A change that puts such a value.
pub fn put_of(len: u64, byte: u8) -> Change {
    Change::Put(value(len, byte))
}
