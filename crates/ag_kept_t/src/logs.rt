//! Steps of a log in memory.
use crate::blocks::with_start;
use crate::words::{number, numbers, word};
use ag_logstore::{HardenedLog, block_sectors_of, copy_of, records_size};
use ag_model::value::NoMemory;
use std::alloc::{AllocError, Global};

/// Appends a block, and answers whether all of it was moved.
fn append(alloc: Global, log: &mut HardenedLog, term: u64) -> Result<bool, NoMemory> {
    let mut block = with_start(alloc, term)?;
    log.append(&mut block)?;
    Ok(block.is_empty())
}

/// Cuts the log where the block ends that starts at an LSN, or at 0 where none does.
fn cut(log: &mut HardenedLog, first: u64) {
    match log.block_from(first) {
        Some(end) => log.cut(end),
        None => log.cut(0),
    }
}

/// The size of a copy of some records, and of a copy of that, where the log has them.
fn copied(
    alloc: Global,
    log: &HardenedLog,
    first: u64,
    last: u64,
) -> Result<Option<(u64, u64)>, NoMemory> {
    if first < 1 || first > last || last > log.end() {
        return Ok(None);
    }
    let copy = log.copy_block(alloc, first, last)?;
    let again = copy_of(&copy)?;
    Ok(Some((
        records_size(copy.as_slice())?,
        records_size(again.as_slice())?,
    )))
}

/// Where the log ends, how many records it has, and how many sectors are free.
fn marks(log: &HardenedLog) -> (u64, usize, u64) {
    (log.end(), log.records().len(), log.free_sectors())
}

/// The log of a group that opens, or an empty one without memory.
fn opened(alloc: Global) -> HardenedLog {
    match HardenedLog::opening(alloc) {
        Ok(log) => log,
        Err(_) => HardenedLog::new(alloc),
    }
}

/// Plays a step, if it is one of a log in memory.
pub fn play(
    alloc: Global,
    log: &mut HardenedLog,
    line: &str,
) -> Result<Option<String>, AllocError> {
    let numbers = numbers(alloc, line)?;
    let a = number(numbers.as_slice(), 0);
    let b = number(numbers.as_slice(), 1);
    match word(line, 0) {
        "log" => *log = opened(alloc),
        "no_log" => *log = HardenedLog::new(alloc),
        "cut" => cut(log, a),
        "marks" => {}
        "append" => return Ok(Some(format!(in alloc; "{:?}", append(alloc, log, a))?)),
        "term" => return Ok(Some(format!(in alloc; "{}", log.term_at(a))?)),
        "block" => return Ok(Some(format!(in alloc; "{:?}", log.block_from(a))?)),
        "after" => return Ok(Some(format!(in alloc; "{}", log.end_after(a))?)),
        "copy" => return Ok(Some(format!(in alloc; "{:?}", copied(alloc, log, a, b))?)),
        "sectors_of" => return Ok(Some(format!(in alloc; "{}", block_sectors_of(a))?)),
        _ => return Ok(None),
    }
    Ok(Some(format!(in alloc; "{:?}", marks(log))?))
}
