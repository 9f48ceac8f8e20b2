//! What the records of a primary allow its group to answer.
use crate::case::number;
use std::alloc::{AllocError, Global};

/// What a line does to the log of its primary.
#[derive(Clone, Copy)]
enum Does<'a> {
    /// It commits this value of a key.
    Sets(u64, &'a str),
    Hardens,
    /// What isn't hardened is lost.
    Crashes,
    Reads(u64),
    /// It shows a page as some front of the log left it.
    Shows(u64),
    /// The same of the primary, which has applied all that it hardened.
    ShowsAll(u64),
    Else,
}

/// What a line does.
fn does_of(line: &str) -> Does<'_> {
    let mut words = line.split_whitespace();
    let name = words.next().unwrap_or("");
    let leads = words.next().unwrap_or("") == "A";
    let third = words.next();
    let fourth = words.next();
    match name {
        "set" => Does::Sets(number(third), fourth.unwrap_or("")),
        "harden" => Does::Hardens,
        "crash" if leads => Does::Crashes,
        "read" => Does::Reads(number(fourth)),
        "page" if leads => Does::ShowsAll(number(third)),
        "page" => Does::Shows(number(third)),
        _ => Does::Else,
    }
}

/// How a read of a key is answered at a front, where these rows were committed one after the other from LSN 3 on.
fn row_text(
    alloc: Global,
    rows: &[(u64, &str)],
    front: usize,
    key: u64,
) -> Result<String, AllocError> {
    let mut value = None;
    for (i, (k, v)) in rows.iter().enumerate() {
        if *k == key && i.wrapping_mul(2).wrapping_add(3) <= front {
            value = Some(*v);
        }
    }
    match value {
        Some(value) => format!(in alloc; "row {front} {value}"),
        None => format!(in alloc; "absent {front}"),
    }
}

/// Whether an answer is that of a read at some front of the log.
fn is_row(alloc: Global, rows: &[(u64, &str)], key: u64, answer: &str) -> Result<bool, AllocError> {
    let end = rows.len().wrapping_mul(2).wrapping_add(2);
    for front in 1..end {
        if row_text(alloc, rows, front, key)?.as_str() == answer {
            return Ok(true);
        }
    }
    Ok(false)
}

/// How a page of 16 is shown where the first of these rows were redone, each of which is a Put and its Commit.
fn page_text(
    alloc: Global,
    rows: &[(u64, &str)],
    count: usize,
    page: u64,
) -> Result<String, AllocError> {
    let (mut last, mut versions) = (0usize, String::new(alloc));
    for (i, (key, value)) in rows.iter().enumerate() {
        if i < count && (*key % 16).wrapping_add(16) == page {
            let (txn, lsn) = (i.wrapping_add(1), i.wrapping_mul(2).wrapping_add(2));
            last = lsn.wrapping_add(1);
            if !versions.is_empty() {
                versions.push_str(",")?;
            }
            let version = format!(in alloc; "{lsn}:{txn}:{last}:{key}:{value}")?;
            versions.push_str(&version)?;
        }
    }
    if versions.is_empty() {
        versions.push_str("-")?;
    }
    format!(in alloc; "page {last} 0 {versions}")
}

/// Whether an answer shows a page as some front of the log left it.
fn is_page(
    alloc: Global,
    rows: &[(u64, &str)],
    page: u64,
    answer: &str,
) -> Result<bool, AllocError> {
    for count in 0..rows.len().wrapping_add(1) {
        if page_text(alloc, rows, count, page)?.as_str() == answer {
            return Ok(true);
        }
    }
    Ok(false)
}

/// What the primary committed, and how much of it stands in its hardened log.
#[derive(Drop)]
pub struct Committed<'a> {
    hardened: Vec<(u64, &'a str)>,
    buffer: Vec<(u64, &'a str)>,
}

impl<'a> Committed<'a> {
    /// Nothing is committed.
    pub fn new(alloc: Global) -> Committed<'a> {
        Committed {
            hardened: Vec::new(alloc),
            buffer: Vec::new(alloc),
        }
    }

    /// Follows an answered line, and tells whether the answer is right where the line reads or shows a page.
    pub fn follow(
        &mut self,
        alloc: Global,
        line: &'a str,
        answer: &str,
    ) -> Result<bool, AllocError> {
        let rows = self.hardened.as_slice();
        match does_of(line) {
            Does::Sets(key, value) => {
                if answer.starts_with("lsn ") {
                    self.buffer.push((key, value))?;
                }
                Ok(true)
            }
            Does::Hardens => {
                self.harden(answer)?;
                Ok(true)
            }
            Does::Crashes => {
                self.buffer.clear();
                Ok(true)
            }
            Does::Reads(key) => Ok(answer.starts_with("no ") || is_row(alloc, rows, key, answer)?),
            Does::Shows(page) => is_page(alloc, rows, page, answer),
            Does::ShowsAll(page) => {
                let text = page_text(alloc, rows, rows.len(), page)?;
                Ok(text.as_str() == answer)
            }
            Does::Else => Ok(true),
        }
    }

    /// Follows an answered harden: the buffer is hardened or lost.
    fn harden(&mut self, answer: &str) -> Result<(), AllocError> {
        let is_stopped = answer.starts_with("stopped ") || answer.starts_with("device_failed ");
        if answer.starts_with("hardened ") || answer == "stopped 1 step=1 torn=-" {
            self.hardened.extend_from_slice(self.buffer.as_slice())?;
            self.buffer.clear();
        }
        if is_stopped {
            self.buffer.clear();
        }
        Ok(())
    }
}
