//! The words of a line, and bytes as text.
use std::alloc::{AllocError, Global};

/// The word of this number, and nothing where there is none.
pub fn word(line: &str, number: usize) -> &str {
    match line.split_whitespace().nth(number) {
        Some(word) => word,
        None => "",
    }
}

/// The numbers of a line, in order. Words that are none are passed over.
pub fn numbers(alloc: Global, line: &str) -> Result<Vec<u64>, AllocError> {
    let mut numbers = Vec::new(alloc);
    for word in line.split_whitespace() {
        if let Ok(n) = word.parse::<u64>() {
            numbers.push(n)?;
        }
    }
    Ok(numbers)
}

/// The number at a place, and 0 where there is none.
pub fn number(numbers: &[u64], place: usize) -> u64 {
    match numbers.get(place) {
        Some(n) => *n,
        None => 0,
    }
}

/// The same as a place on a disk, which has none so great.
pub fn place(numbers: &[u64], i: usize) -> u32 {
    match u32::try_from(number(numbers, i)) {
        Ok(at) => at,
        Err(_) => u32::MAX,
    }
}

/// The same as the number of a page, which is none so great.
pub fn page(numbers: &[u64], i: usize) -> u16 {
    match u16::try_from(number(numbers, i)) {
        Ok(page) => page,
        Err(_) => u16::MAX,
    }
}

/// The same as a byte.
pub fn byte(numbers: &[u64], i: usize) -> u8 {
    (number(numbers, i) % 256) as u8
}

/// The first of some bytes, in hex.
pub fn hex(alloc: Global, bytes: &[u8], count: usize) -> Result<String, AllocError> {
    let mut text = String::new(alloc);
    for byte in bytes.iter().take(count) {
        let digits = format!(in alloc; "{byte:02x}")?;
        text.push_str(&digits)?;
    }
    Ok(text)
}
