//! What a primary knows, who is waited for, and how far a trim may go.
use crate::sets::set_of;
use crate::words::{next_number, next_small, next_word, number};
use ag_capture::Capture;
use ag_model::list::ListOf;
use ag_model::record::Log;
use std::alloc::{AllocError, Global};
use std::str::SplitWhitespace;

/// What a primary knows, and the log whose blocks it sends. The records of that aren't looked at.
#[derive(Drop)]
pub struct Leading {
    capture: Capture,
    log: Log,
}

/// A primary that knows nobody, and a log with no block.
pub fn new(alloc: Global) -> Leading {
    Leading {
        capture: Capture::new(0),
        log: Log {
            records: ListOf::new(alloc),
            ends: ListOf::new(alloc),
        },
    }
}

/// A log whose blocks end at the LSNs that a word lists.
fn log_of(alloc: Global, word: &str) -> Result<Log, AllocError> {
    let mut ends = Vec::new(alloc);
    for end in word.split(',') {
        ends.push(number(end))?;
    }
    Ok(Log {
        records: ListOf::new(alloc),
        ends: ListOf::from_vec(ends),
    })
}

/// A primary of this number, if there may be such a one.
fn lead(capture: &mut Capture, primary: u8) -> Option<()> {
    if primary >= 16 {
        return None;
    }
    *capture = Capture::new(primary);
    Some(())
}

/// Connects a replica whose log is the primary's up to an LSN.
fn connect(capture: &mut Capture, m: u8, fork: u64) -> Option<()> {
    if m >= 16 || fork == u64::MAX {
        return None;
    }
    capture.connect(m, fork);
    Some(())
}

/// Gives a connection up.
fn disconnect(capture: &mut Capture, m: u8) -> Option<()> {
    if m >= 16 {
        return None;
    }
    capture.disconnect(m);
    Some(())
}

/// Whether a replica is connected.
fn is_connected(capture: &Capture, m: u8) -> Option<bool> {
    if m < 16 {
        Some(capture.is_connected(m))
    } else {
        None
    }
}

/// The block that a replica is sent next, if it is connected.
fn next(capture: &Capture, m: u8, log: &Log) -> Option<Option<(u64, u64)>> {
    if m < 16 && capture.is_connected(m) {
        Some(capture.next(m, log))
    } else {
        None
    }
}

/// Notes up to which LSN a replica was sent the log, if it is connected.
fn sent(capture: &mut Capture, m: u8, last: u64) -> Option<()> {
    if m < 16 && last < u64::MAX && capture.is_connected(m) {
        capture.sent(m, last);
        Some(())
    } else {
        None
    }
}

/// Notes what a replica says of itself, if it is connected.
fn known(capture: &mut Capture, m: u8, hardened: u64, low: u64) -> Option<u64> {
    if m < 16 && capture.is_connected(m) {
        Some(capture.known(m, hardened, low))
    } else {
        None
    }
}

/// Whether a commit at an LSN may be confirmed: the words have the LSN, the primary's own, and the synchronised set.
fn may_ack(
    alloc: Global,
    capture: &Capture,
    words: &mut SplitWhitespace<'_>,
) -> Result<String, AllocError> {
    let lsn = next_number(words);
    let own = next_number(words);
    let synced = set_of(next_word(words));
    format!(in alloc; "{:?}", capture.may_ack(lsn, own, synced))
}

/// How far a trim may go: the words have the primary's own LSN, and the least snapshot if there is one.
fn limit(capture: &Capture, words: &mut SplitWhitespace<'_>) -> u64 {
    let own = next_number(words);
    let snapshot = words.next().map(|word| number(word));
    capture.limit(own, snapshot)
}

/// What a step on the connection of one replica gave, if it is one.
fn connection(
    alloc: Global,
    leading: &mut Leading,
    name: &str,
    words: &mut SplitWhitespace<'_>,
) -> Result<Option<String>, AllocError> {
    let capture = &mut leading.capture;
    let m = next_small(words);
    let text = match name {
        "lead" => format!(in alloc; "{:?}", lead(capture, m))?,
        "connect" => format!(in alloc; "{:?}", connect(capture, m, next_number(words)))?,
        "disconnect" => format!(in alloc; "{:?}", disconnect(capture, m))?,
        "connected" => format!(in alloc; "{:?}", is_connected(capture, m))?,
        "next" => format!(in alloc; "{:?}", next(capture, m, &leading.log))?,
        "sent" => format!(in alloc; "{:?}", sent(capture, m, next_number(words)))?,
        "known" => {
            let gave = known(capture, m, next_number(words), next_number(words));
            format!(in alloc; "{gave:?}")?
        }
        _ => return Ok(None),
    };
    Ok(Some(text))
}

/// What a step on what a primary knows gave, if it is one.
pub fn step(
    alloc: Global,
    leading: &mut Leading,
    name: &str,
    words: &mut SplitWhitespace<'_>,
) -> Result<Option<String>, AllocError> {
    let text = match name {
        "log" => {
            leading.log = log_of(alloc, next_word(words))?;
            format!(in alloc; "{} blocks", leading.log.ends.len())?
        }
        "ack" => may_ack(alloc, &leading.capture, words)?,
        "limit" => format!(in alloc; "{}", limit(&leading.capture, words))?,
        _ => return connection(alloc, leading, name, words),
    };
    Ok(Some(text))
}
