//! The edits of a page, each behind a function without clauses.
use crate::building::value;
use crate::words::{at, long};
use ag_model::value::{Change, PageValue, Row, TooOld};
use ag_version::{PutFault, abort, put, row_at, stamp, trim};

/// Puts a version on: its LSN, its transaction, its key and its value.
pub fn put_on(v: &mut PageValue, n: &[u64]) -> Result<(), PutFault> {
    let value = value(n.get(3..).unwrap_or(&[]));
    put(v, at(n, 0), at(n, 1), long(at(n, 2)), &Change::Put(value))
}

/// Puts a version on that deletes its key: its LSN, its transaction and its key.
pub fn del_on(v: &mut PageValue, n: &[u64]) -> Result<(), PutFault> {
    put(v, at(n, 0), at(n, 1), long(at(n, 2)), &Change::Del)
}

/// Puts a value so many times, from LSN 0 on, and answers how often that went well.
pub fn puts(v: &mut PageValue, n: &[u64]) -> u64 {
    let change = Change::Put(value(n.get(1..).unwrap_or(&[])));
    let mut well = 0u64;
    for lsn in 0..at(n, 0) {
        if put(v, lsn, 1, 0, &change).is_ok() {
            well = well.saturating_add(1);
        }
    }
    well
}

/// Commits at an LSN a transaction.
pub fn stamp_on(v: &mut PageValue, n: &[u64]) {
    stamp(v, at(n, 0), at(n, 1));
}

/// Aborts at an LSN a transaction.
pub fn abort_on(v: &mut PageValue, n: &[u64]) {
    abort(v, at(n, 0), at(n, 1));
}

/// Trims at an LSN to a horizon.
pub fn trim_on(v: &mut PageValue, n: &[u64]) {
    trim(v, at(n, 0), at(n, 1));
}

/// The row of a key at a snapshot, for the reader's own transaction, if there is one.
pub fn row(v: &PageValue, n: &[u64]) -> Result<Row, TooOld> {
    row_at(v, long(at(n, 0)), at(n, 1), n.get(2).copied())
}
