//! Forks, touched pages and plans.
use crate::masters::said_master;
use crate::sets::{said_set, set_of};
use crate::words::{next_number, next_small, next_word, number};
use ag_master::Master;
use ag_model::config::TermStart;
use ag_model::list::ListOf;
use ag_model::page_set::PageSet;
use ag_model::record::Log;
use ag_record::{RecordFault, decode_all};
use ag_revert::{Plan, fork, plan, touched};
use std::alloc::{AllocError, Global};

/// The term starts that a word lists, as `1:1,2:4`.
fn starts_of(alloc: Global, word: &str) -> Result<Vec<TermStart>, AllocError> {
    let mut starts = Vec::new(alloc);
    for start in word.split(',') {
        if let Some((term, lsn)) = start.split_once(':') {
            starts.push(TermStart {
                term: number(term),
                lsn: number(lsn),
            })?;
        }
    }
    Ok(starts)
}

/// Where two logs part, each told by its end and its term starts, and the same asked the other way round.
fn forks(alloc: Global, text: &str) -> Result<String, AllocError> {
    let mut words = text.split_whitespace();
    let own_end = next_number(&mut words);
    let own = starts_of(alloc, next_word(&mut words))?;
    let other_end = next_number(&mut words);
    let other = starts_of(alloc, next_word(&mut words))?;
    let one = fork(&own, own_end, &other, other_end);
    let back = fork(&other, other_end, &own, own_end);
    format!(in alloc; "{one} {back}")
}

/// Holds the bytes of records.
fn hold(alloc: Global, held: &mut Vec<u8>, text: &str) -> Result<String, AllocError> {
    held.clear();
    for word in text.split_whitespace() {
        if let Ok(bytes) = hex::decode(alloc, word) {
            held.extend_from_slice(&bytes)?;
        }
    }
    format!(in alloc; "{}", held.len())
}

/// The pages that the records of these bytes touch after an LSN, in a database of so many pages; none if there is no such database.
fn touched_by(
    alloc: Global,
    bytes: &[u8],
    after: u64,
    pages: u16,
) -> Result<Option<PageSet>, RecordFault> {
    let log = Log {
        records: decode_all(alloc, bytes)?,
        ends: ListOf::new(alloc),
    };
    if pages < 16 || pages > 2048 {
        return Ok(None);
    }
    Ok(Some(touched(&log, after, pages)))
}

/// The pages that the held records touch after an LSN, in a database of so many pages.
fn touched_pages(alloc: Global, held: &[u8], text: &str) -> Result<String, AllocError> {
    let mut words = text.split_whitespace();
    let after = next_number(&mut words);
    let pages = next_word(&mut words).parse::<u16>().unwrap_or(0);
    match touched_by(alloc, held, after, pages) {
        Ok(Some(set)) => said_set(alloc, &set),
        Ok(None) => format!(in alloc; "no such database"),
        Err(fault) => format!(in alloc; "{fault:?}"),
    }
}

/// What is planned, unless records are cut and the incarnation is spent.
fn plan_unspent(
    m: &Master,
    log_end: u64,
    term: u64,
    fork: u64,
    end: u64,
    touched: &PageSet,
) -> Option<Plan> {
    if fork < log_end && m.incarnation >= 1 << 63 {
        return None;
    }
    Some(plan(m, log_end, term, fork, end, touched))
}

/// The plan of replica A in a database of 16 pages: the words have its state, incarnation, term, redo start and foreign pages, then
/// where its log ends, the new term, the fork, where the primary's log ends, and the touched pages.
fn planned(alloc: Global, text: &str) -> Result<String, AllocError> {
    let mut words = text.split_whitespace();
    let master = Master {
        format: 1,
        state: next_small(&mut words),
        incarnation: next_number(&mut words),
        term: next_number(&mut words),
        cut: 1,
        undo: 0,
        redo: next_number(&mut words),
        pages: 16,
        replica: 0,
        foreign: set_of(next_word(&mut words)),
    };
    let log_end = next_number(&mut words);
    let term = next_number(&mut words);
    let fork = next_number(&mut words);
    let end = next_number(&mut words);
    let touched = set_of(next_word(&mut words));
    match plan_unspent(&master, log_end, term, fork, end, &touched) {
        Some(Plan::Revert(m)) => said_master(alloc, &m),
        other => format!(in alloc; "{other:?}"),
    }
}

/// What a step on logs and masters gave, if it is one. A log's bytes are held for the steps that follow.
pub fn step(
    alloc: Global,
    held: &mut Vec<u8>,
    name: &str,
    text: &str,
) -> Result<Option<String>, AllocError> {
    let told = match name {
        "fork" => forks(alloc, text)?,
        "log" => hold(alloc, held, text)?,
        "touched" => touched_pages(alloc, held, text)?,
        "plan" => planned(alloc, text)?,
        _ => return Ok(None),
    };
    Ok(Some(told))
}
