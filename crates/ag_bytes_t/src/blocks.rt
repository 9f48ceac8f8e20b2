//! Payloads cut up into sectors and put together again.
use crate::printing::said_bytes;
use crate::words::number;
use ag_logblock::{BlockFault, Head, Sector, cut_up, put_together, sectors_of};
use std::alloc::{AllocError, Global};

/// Cuts a payload up, where it can be a block.
fn cut_where_fits(head: Head, payload: &[u8], sectors: &mut Vec<Sector>) -> Option<bool> {
    if head.incarnation < 1 || payload.is_empty() || payload.len() > 15_488 {
        return None;
    }
    Some(cut_up(&head, payload, sectors).is_ok())
}

/// Appends the sectors of a block with this term, incarnation and first LSN, and says all that there are then.
pub fn cut(
    alloc: Global,
    payload: &[u8],
    sectors: &mut Vec<Sector>,
    text: &str,
) -> Result<String, AllocError> {
    let mut words = text.split_whitespace();
    let term = number(words.next());
    let incarnation = number(words.next());
    let first = number(words.next());
    let head = Head {
        term,
        incarnation,
        first,
    };
    let is_cut = cut_where_fits(head, payload, sectors);
    let mut said = format!(in alloc; "{is_cut:?}")?;
    for sector in sectors.iter() {
        let bytes = said_bytes(alloc, sector)?;
        write!(said, " | {bytes}")?;
    }
    Ok(said)
}

/// The head and the payload of a block.
fn put(alloc: Global, sectors: &[Sector]) -> Result<(Head, Vec<u8>), BlockFault> {
    let mut payload = Vec::new(alloc);
    let head = put_together(sectors, &mut payload)?;
    Ok((head, payload))
}

/// What sectors are put together to, of which the words name one, a byte of it and its new value.
pub fn join(alloc: Global, sectors: &[Sector], text: &str) -> Result<String, AllocError> {
    let mut words = text.split_whitespace();
    let sector = number(words.next());
    let at = number(words.next());
    let to = words.next();
    let mut copy = Vec::from_slice(alloc, sectors)?;
    if to.is_some() {
        if let Some(bytes) = copy.get_mut(sector as usize) {
            if let Some(byte) = bytes.get_mut(at as usize) {
                *byte = (number(to) % 256) as u8;
            }
        }
    }
    match put(alloc, &copy) {
        Ok((head, payload)) => {
            let payload = said_bytes(alloc, &payload)?;
            format!(in alloc; "{head:?} {payload}")
        }
        Err(fault) => format!(in alloc; "{fault:?}"),
    }
}

/// How many sectors so many bytes take.
pub fn sectors(alloc: Global, text: &str) -> Result<String, AllocError> {
    format!(in alloc; "{}", sectors_of(number(Some(text))))
}
