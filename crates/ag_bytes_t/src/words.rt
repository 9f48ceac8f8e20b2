//! The words of a step.
use std::alloc::{AllocError, Global};

/// A number, and 0 where there is none.
pub fn number(word: Option<&str>) -> u64 {
    match word {
        Some(word) => word.parse::<u64>().unwrap_or(0),
        None => 0,
    }
}

/// The bytes of a word: pairs of hexadecimal digits, or a byte and how often it stands, as `07*1000`.
fn part(alloc: Global, word: &str) -> Result<Vec<u8>, AllocError> {
    let (digits, count) = word.split_once('*').unwrap_or((word, "1"));
    let mut bytes = Vec::new(alloc);
    let Ok(some) = hex::decode(alloc, digits) else {
        return Ok(bytes);
    };
    for _ in 0..number(Some(count)) {
        bytes.extend_from_slice(&some)?;
    }
    Ok(bytes)
}

/// The bytes of some words.
pub fn bytes_of(alloc: Global, text: &str) -> Result<Vec<u8>, AllocError> {
    let mut bytes = Vec::new(alloc);
    for word in text.split_whitespace() {
        let part = part(alloc, word)?;
        bytes.extend_from_slice(&part)?;
    }
    Ok(bytes)
}

/// A copy of some bytes, of which the first word names one and the second its new value, and the third says how many are left.
pub fn changed(alloc: Global, bytes: &[u8], text: &str) -> Result<Vec<u8>, AllocError> {
    let mut copy = Vec::from_slice(alloc, bytes)?;
    let mut words = text.split_whitespace();
    let at = words.next();
    let to = words.next();
    if to.is_some() {
        if let Some(byte) = copy.get_mut(number(at) as usize) {
            *byte = (number(to) % 256) as u8;
        }
    }
    if let Some(len) = words.next() {
        copy.truncate(number(Some(len)) as usize);
    }
    Ok(copy)
}
