//! The words of a line, and bytes as text.
use ag_model::event::Suffix;
use std::alloc::{AllocError, Global};

/// The word of this number, and nothing where there is none.
pub fn word(line: &str, number: usize) -> &str {
    match line.split_whitespace().nth(number) {
        Some(word) => word,
        None => "",
    }
}

/// The numbers of a line, in order. Words that are none are passed over.
pub fn numbers(alloc: Global, line: &str) -> Result<Vec<u64>, AllocError> {
    let mut numbers = Vec::new(alloc);
    for word in line.split_whitespace() {
        if let Ok(n) = word.parse::<u64>() {
            numbers.push(n)?;
        }
    }
    Ok(numbers)
}

/// The number at a place, and 0 where there is none.
pub fn number(numbers: &[u64], place: usize) -> u64 {
    match numbers.get(place) {
        Some(n) => *n,
        None => 0,
    }
}

/// The same as a number of 32 bits, and 0 where it has more.
pub fn short(numbers: &[u64], place: usize) -> u32 {
    match u32::try_from(number(numbers, place)) {
        Ok(n) => n,
        Err(_) => 0,
    }
}

/// The numbers from a place on.
pub fn from_place(alloc: Global, numbers: &[u64], place: usize) -> Result<Vec<u64>, AllocError> {
    let mut rest = Vec::new(alloc);
    for n in numbers.iter().skip(place) {
        rest.push(*n)?;
    }
    Ok(rest)
}

/// Where a line says that a step is to be cut short: its kind, and the numbers from a place on.
pub fn suffix_of(kind: &str, numbers: &[u64], place: usize) -> Suffix {
    match kind {
        "stop" => Suffix::Stop {
            write: short(numbers, place),
            mask: number(numbers, place.saturating_add(1)),
        },
        "fail" => Suffix::Fail {
            call: short(numbers, place),
        },
        _ => Suffix::Whole,
    }
}

/// Bytes in hex, without the zeros at their end.
pub fn hex(alloc: Global, bytes: &[u8]) -> Result<String, AllocError> {
    let mut text = String::new(alloc);
    let mut zeros = String::new(alloc);
    for byte in bytes {
        let digits = format!(in alloc; "{byte:02x}")?;
        if *byte == 0 {
            zeros.push_str(&digits)?;
        } else {
            text.push_str(&zeros)?;
            text.push_str(&digits)?;
            zeros.clear();
        }
    }
    Ok(text)
}
