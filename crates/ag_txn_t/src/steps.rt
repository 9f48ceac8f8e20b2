//! The steps of a line. A value is told by its length and its first byte.
use crate::stand::Stand;
use crate::texts::{end_text, number_text, row_text};
use crate::words::{number, numbers, page, place, word};
use ag_model::event::{Pair, PairList};
use ag_model::value::{Change, Value};
use std::alloc::{AllocError, Global};

/// A value of this many bytes, of which the first is this one.
fn value(len: u64, first: u64) -> Value {
    let mut bytes = [0; 64];
    bytes[0] = (first % 256) as u8;
    Value {
        len: (len % 65) as u8,
        bytes,
    }
}

/// The pairs of a line: a key, a length and a first byte each.
fn pairs(alloc: Global, words: &[u64]) -> Result<PairList, AllocError> {
    let mut pairs = PairList::new(alloc);
    for three in words.chunks(3) {
        pairs.push(Pair {
            key: place(three, 0),
            value: value(number(three, 1), number(three, 2)),
        })?;
    }
    Ok(pairs)
}

/// Sets the same pair again and again.
fn set_often(
    alloc: Global,
    stand: &mut Stand,
    count: u64,
    pairs: &PairList,
) -> Result<String, AllocError> {
    let mut last = None;
    for _ in 0..count {
        last = stand.set(pairs);
    }
    number_text(alloc, "lsn", last)
}

/// Plays a line that asks for no row.
fn change(
    alloc: Global,
    stand: &mut Stand,
    line: &str,
    words: &[u64],
) -> Result<String, AllocError> {
    let txn = number(words, 0);
    match word(line, 0) {
        "begin" => number_text(alloc, "txn", Some(stand.txns.begin())),
        "put" => {
            let change = Change::Put(value(number(words, 2), number(words, 3)));
            number_text(alloc, "lsn", stand.put(txn, place(words, 1), &change))
        }
        "del" => number_text(alloc, "lsn", stand.put(txn, place(words, 1), &Change::Del)),
        "commit" => end_text(alloc, stand.end(true, txn)),
        "rollback" => end_text(alloc, stand.end(false, txn)),
        "set" => {
            let pairs = pairs(alloc, words)?;
            number_text(alloc, "lsn", stand.set(&pairs))
        }
        "often" => {
            let (_, rest) = words.split_at(words.len().min(1));
            let pairs = pairs(alloc, rest)?;
            set_often(alloc, stand, txn % 1000, &pairs)
        }
        "trim" => {
            let answer = stand.trim(page(words, 0), number(words, 1), number(words, 2));
            number_text(alloc, "lsn", answer)
        }
        "harden" => number_text(alloc, "hardened", stand.harden()),
        "back" => number_text(alloc, "first", Some(stand.take_and_put_back())),
        _ => format!(in alloc; "no such step"),
    }
}

/// Plays a line.
pub fn play(alloc: Global, stand: &mut Stand, line: &str) -> Result<String, AllocError> {
    let words = numbers(alloc, line)?;
    let words = words.as_slice();
    match word(line, 0) {
        "get" => row_text(alloc, stand.get(number(words, 0), place(words, 1))),
        "open" => format!(in alloc; "{}", stand.txns.is_open(number(words, 0))),
        "spent" => format!(in alloc; "{}", stand.txns.is_spent()),
        "buffer" => format!(in alloc; "{} records", stand.txns.records().len()),
        "forget" => format!(in alloc; "{}", stand.forget()),
        "least" => match stand.txns.least_snapshot() {
            Some(lsn) => format!(in alloc; "snapshot {lsn}"),
            None => format!(in alloc; "none open"),
        },
        _ => change(alloc, stand, line, words),
    }
}
