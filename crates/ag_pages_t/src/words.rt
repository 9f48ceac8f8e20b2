//! The words of a line.
use std::alloc::{AllocError, Global};

/// Two words, and the numbers among the others.
#[derive(Drop)]
pub struct Step<'a> {
    pub subject: &'a str,
    pub verb: &'a str,
    pub numbers: Vec<u64>,
}

/// The step of a line.
pub fn step_of(alloc: Global, line: &str) -> Result<Step<'_>, AllocError> {
    let mut words = line.split_whitespace();
    let subject = words.next().unwrap_or("");
    let verb = words.next().unwrap_or("");
    let mut numbers = Vec::new(alloc);
    for word in words {
        if let Ok(n) = word.parse::<u64>() {
            numbers.push(n)?;
        }
    }
    Ok(Step {
        subject,
        verb,
        numbers,
    })
}

/// The number at this place, or 0.
pub fn at(numbers: &[u64], place: usize) -> u64 {
    numbers.get(place).copied().unwrap_or(0)
}

/// The last 8 bits.
pub fn byte(n: u64) -> u8 {
    (n & 0xff) as u8
}

/// The last 16 bits.
pub fn short(n: u64) -> u16 {
    (n & 0xffff) as u16
}

/// The last 32 bits.
pub fn long(n: u64) -> u32 {
    (n & 0xffff_ffff) as u32
}

/// The number as a place.
pub fn place(n: u64) -> usize {
    long(n) as usize
}
