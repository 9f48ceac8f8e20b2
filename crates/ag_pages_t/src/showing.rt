//! Prints what steps gave.
use ag_model::page_set::PageSet;
use ag_model::value::{Change, PageValue, Row, Value};
use ag_stripe::StripeFault;
use std::io;

/// Prints bytes.
pub fn hex(rt: &HostRuntime, bytes: &[u8]) -> io::Result<()> {
    print!(rt; " ")?;
    for b in bytes {
        print!(rt; "{b:02x}")?;
    }
    Ok(())
}

/// Prints the bytes of a value, and says where one after them isn't zero.
fn value(rt: &HostRuntime, value: &Value) -> io::Result<()> {
    let (bytes, rest) = value.bytes.split_at(usize::from(value.len.min(64)));
    hex(rt, bytes)?;
    for b in rest {
        if *b != 0 {
            print!(rt; " and {b:02x}")?;
        }
    }
    Ok(())
}

/// Prints a row.
pub fn row(rt: &HostRuntime, answer: &Option<Result<Row, StripeFault>>) -> io::Result<()> {
    match answer {
        Some(Ok(Row::Found(found))) => value(rt, found),
        Some(Ok(Row::Absent)) => print!(rt; " absent"),
        Some(Err(e)) => print!(rt; " {e:?}"),
        None => print!(rt; " not asked"),
    }
}

/// Prints what a page holds. A version has its LSN, its transaction, the LSN of its Commit, its key and its change.
fn page(rt: &HostRuntime, v: &PageValue) -> io::Result<()> {
    print!(rt; " page {}, LSN {}, horizon {}", v.page, v.lsn, v.horizon)?;
    for w in v.versions.as_slice() {
        print!(rt; "; {} {} {} key {}", w.lsn, w.txn, w.commit, w.key)?;
        match &w.change {
            Change::Put(put) => value(rt, put)?,
            Change::Del => print!(rt; " deleted")?,
        }
    }
    Ok(())
}

/// Prints the value of a page.
pub fn page_value(
    rt: &HostRuntime,
    answer: &Option<Result<PageValue, StripeFault>>,
) -> io::Result<()> {
    match answer {
        Some(Ok(v)) => page(rt, v),
        Some(Err(e)) => print!(rt; " {e:?}"),
        None => print!(rt; " not asked"),
    }
}

/// Prints the pages of a set.
pub fn pages(rt: &HostRuntime, set: &PageSet) -> io::Result<()> {
    if set.is_empty() {
        print!(rt; " none")?;
    }
    for page in 16..2064 {
        if set.has(page) {
            print!(rt; " {page}")?;
        }
    }
    Ok(())
}
