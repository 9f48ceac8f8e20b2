//! The numbers of a line.
use std::alloc::{AllocError, Global};

/// The words of a line that are numbers.
pub fn numbers(alloc: Global, line: &str) -> Result<Vec<u64>, AllocError> {
    let mut numbers = Vec::new(alloc);
    for word in line.split_whitespace() {
        if let Ok(n) = word.parse::<u64>() {
            numbers.push(n)?;
        }
    }
    Ok(numbers)
}

/// The number at this place, or 0.
pub fn at(numbers: &[u64], place: usize) -> u64 {
    numbers.get(place).copied().unwrap_or(0)
}

/// The last 8 bits.
pub fn byte(n: u64) -> u8 {
    (n & 0xff) as u8
}

/// The last 16 bits.
pub fn short(n: u64) -> u16 {
    (n & 0xffff) as u16
}

/// The last 32 bits.
pub fn long(n: u64) -> u32 {
    (n & 0xffff_ffff) as u32
}

/// The number as a place.
pub fn place(n: u64) -> usize {
    long(n) as usize
}
