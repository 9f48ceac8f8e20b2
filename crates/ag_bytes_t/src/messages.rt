//! Messages from bytes and back.
use crate::printing::{said_bytes, said_records};
use ag_model::message::{Body, Message};
use ag_wire::{WireFault, decode, encode};
use std::alloc::{AllocError, Global};

/// The message of all of the bytes, and what its bytes are after one that was there before.
fn read(alloc: Global, bytes: &[u8]) -> Result<(Message, Vec<u8>), WireFault> {
    let message = decode(alloc, bytes)?;
    let mut again = Vec::from_slice(alloc, &[9])?;
    if encode(&message, &mut again).is_err() {
        return Err(WireFault::NoMemory);
    }
    Ok((message, again))
}

/// The fault of bytes that are no message.
fn fault(alloc: Global, bytes: &[u8]) -> Option<WireFault> {
    decode(alloc, bytes).err()
}

/// What a message says.
fn said(alloc: Global, message: &Message) -> Result<String, AllocError> {
    match &message.body {
        Body::Block(block) => {
            let records = said_records(alloc, block.records.as_slice())?;
            let term = message.term;
            format!(in alloc; "{term} Block {} {}: {records}", block.term, block.first)
        }
        _ => format!(in alloc; "{message:?}"),
    }
}

/// The first bytes that are cut off with another outcome than that a byte is missing, and what is wrong where one more follows.
fn cut_off(alloc: Global, bytes: &[u8]) -> Result<String, AllocError> {
    for len in 0..bytes.len() {
        let fault = fault(alloc, &bytes[..len]);
        if fault != Some(WireFault::Short) {
            return format!(in alloc; "{len} {fault:?}");
        }
    }
    let mut longer = Vec::from_slice(alloc, bytes)?;
    longer.push(0)?;
    format!(in alloc; "cut off: Short, longer: {:?}", fault(alloc, &longer))
}

/// A message from bytes and back, from fewer bytes and from one more.
pub fn message(alloc: Global, bytes: &[u8]) -> Result<String, AllocError> {
    let (message, again) = match read(alloc, bytes) {
        Ok(both) => both,
        Err(fault) => return format!(in alloc; "{fault:?}"),
    };
    let said = said(alloc, &message)?;
    let again = said_bytes(alloc, &again)?;
    let cut_off = cut_off(alloc, bytes)?;
    format!(in alloc; "{said} {again} {cut_off}")
}

/// The fault where one byte has another value.
fn fault_at(
    alloc: Global,
    bytes: &[u8],
    at: usize,
    to: u8,
) -> Result<Option<WireFault>, AllocError> {
    let mut copy = Vec::from_slice(alloc, bytes)?;
    if let Some(byte) = copy.get_mut(at) {
        *byte = to;
    }
    Ok(fault(alloc, &copy))
}

/// The outcome at each value of one byte, from each value on at which it is another one.
fn outcomes(alloc: Global, bytes: &[u8], at: usize) -> Result<String, AllocError> {
    let mut said = String::new(alloc);
    let mut last = None;
    for to in 0..=255 {
        let outcome = fault_at(alloc, bytes, at, to)?;
        if last != Some(outcome) {
            match outcome {
                Some(fault) => write!(said, " {to} {fault:?}")?,
                None => write!(said, " {to} ok")?,
            }
        }
        last = Some(outcome);
    }
    Ok(said)
}

/// The outcomes at each byte.
pub fn each(alloc: Global, bytes: &[u8]) -> Result<String, AllocError> {
    let mut told = format!(in alloc; "{} bytes", bytes.len())?;
    for at in 0..bytes.len() {
        let outcomes = outcomes(alloc, bytes, at)?;
        write!(told, "\n  {at}:{outcomes}")?;
    }
    Ok(told)
}
