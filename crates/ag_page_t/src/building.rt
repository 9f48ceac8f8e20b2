//! Pages and versions from the numbers of a line.
use crate::words::{at, byte, long, place, short};
use ag_model::value::{Change, PageValue, Value, Version, VersionList};
use std::alloc::{AllocError, Global};

/// A value: its length, and then the place and the byte of each byte that isn't zero. A place past the 64 bytes is passed over.
pub fn value(n: &[u64]) -> Value {
    let mut bytes = [0; 64];
    for pair in n.get(1..).unwrap_or(&[]).chunks(2) {
        if let Some(slot) = bytes.get_mut(place(at(pair, 0))) {
            *slot = byte(at(pair, 1));
        }
    }
    Value {
        len: byte(at(n, 0)),
        bytes,
    }
}

/// A page with no versions: its number, its LSN and its horizon.
pub fn page(alloc: Global, n: &[u64]) -> PageValue {
    PageValue {
        page: short(at(n, 0)),
        lsn: at(n, 1),
        horizon: at(n, 2),
        versions: VersionList::new(alloc),
    }
}

/// A version: its LSN, its transaction, the LSN of its Commit and its key.
fn version(n: &[u64], change: Change) -> Version {
    Version {
        lsn: at(n, 0),
        txn: at(n, 1),
        commit: at(n, 2),
        key: long(at(n, 3)),
        change,
    }
}

/// Adds a version that puts the value after those four numbers.
pub fn put_version(v: &mut PageValue, n: &[u64]) -> Result<(), AllocError> {
    let value = value(n.get(4..).unwrap_or(&[]));
    v.versions.push(version(n, Change::Put(value)))
}

/// Adds a version that deletes its key.
pub fn del_version(v: &mut PageValue, n: &[u64]) -> Result<(), AllocError> {
    v.versions.push(version(n, Change::Del))
}

/// Adds so many versions of key 5, committed at LSN 3, from LSN 0 on, which put the value after that number.
pub fn put_versions(v: &mut PageValue, n: &[u64]) -> Result<(), AllocError> {
    let value = value(n.get(1..).unwrap_or(&[]));
    for lsn in 0..at(n, 0) {
        v.versions
            .push(version(&[lsn, 1, 3, 5], Change::Put(value)))?;
    }
    Ok(())
}
