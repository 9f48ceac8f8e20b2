//! Messages in flight, each of one byte.
use crate::words::{next_number, next_small, next_word};
use ag_link::{Link, LinkFault, MessageBytes};
use std::alloc::{AllocError, Global};
use std::str::SplitWhitespace;

/// Sends a message of one byte.
fn send(alloc: Global, link: &mut Link, byte: u8) -> Result<(), LinkFault> {
    let mut bytes = MessageBytes::new(alloc);
    bytes.push(byte)?;
    link.send(bytes)
}

/// Sends so many messages of byte 1, as long as there is room. How many were sent.
fn fill(alloc: Global, link: &mut Link, most: u64) -> Result<u64, LinkFault> {
    for sent in 0..most {
        if link.is_full() {
            return Ok(sent);
        }
        send(alloc, link, 1)?;
    }
    Ok(most)
}

/// The bytes of a message.
fn bytes_of(alloc: Global, answer: &Result<MessageBytes, LinkFault>) -> Result<String, AllocError> {
    match answer {
        Ok(message) => format!(in alloc; "{:?}", message.as_slice()),
        Err(fault) => format!(in alloc; "{fault:?}"),
    }
}

/// Takes all messages out, the oldest first.
fn drain(alloc: Global, link: &mut Link) -> Result<String, AllocError> {
    let mut text = String::new(alloc);
    for _ in 0..link.len() {
        let message = bytes_of(alloc, &link.take(1))?;
        text.push_str(message.as_str())?;
    }
    format!(in alloc; "{text} {}", link.is_empty())
}

/// The number of a message.
fn next_place(words: &mut SplitWhitespace<'_>) -> u16 {
    next_word(words).parse::<u16>().unwrap_or(0)
}

/// What a step on the link gave, if it is one.
pub fn step(
    alloc: Global,
    link: &mut Link,
    name: &str,
    words: &mut SplitWhitespace<'_>,
) -> Result<Option<String>, AllocError> {
    let text = match name {
        "link" => {
            *link = Link::new(alloc);
            format!(in alloc; "{}", link.len())?
        }
        "send" => format!(in alloc; "{:?}", send(alloc, link, next_small(words)))?,
        "fill" => format!(in alloc; "{:?}", fill(alloc, link, next_number(words)))?,
        "copy" => bytes_of(alloc, &link.copy(next_place(words)))?,
        "take" => bytes_of(alloc, &link.take(next_place(words)))?,
        "drop" => format!(in alloc; "{:?}", link.drop_at(next_place(words)))?,
        "full" => format!(in alloc; "{}", link.is_full())?,
        "len" => format!(in alloc; "{}", link.len())?,
        "drain" => drain(alloc, link)?,
        _ => return Ok(None),
    };
    Ok(Some(text))
}
