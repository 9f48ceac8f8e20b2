//! How a line is played.
use crate::building::put_of;
use crate::drawing;
use crate::edits::{Made, abort_both, put_both, row_both, stamp_both, trim_both};
use crate::page::{Page, empty, is_same};
use crate::words::{at, byte, long, numbers};
use ag_model::value::{Change, Row, TooOld};
use std::io;

/// Prints whether all is the same both ways.
fn print_same(rt: &HostRuntime, same: bool) -> io::Result<()> {
    print!(rt; "{}", if same { ", the same" } else { ", NOT the same" })
}

/// The version that the first three numbers make.
fn made(n: &[u64]) -> Made {
    Made {
        lsn: at(n, 0),
        txn: at(n, 1),
        key: long(at(n, 2)),
    }
}

/// Puts a version on, and prints the answer.
fn put(rt: &HostRuntime, page: &mut Page, n: &[u64], change: &Change) -> io::Result<()> {
    let (there, same) = put_both(rt.alloc(), page, made(n), change);
    match there {
        Some(Ok(())) => print!(rt; ": put")?,
        Some(Err(full)) => print!(rt; ": needs {}, free {}", full.need, full.free)?,
        None => print!(rt; ": no page")?,
    }
    print_same(rt, same)
}

/// Puts versions of so many bytes on until one is refused, from an LSN on, and prints how many went on.
fn fill(rt: &HostRuntime, page: &mut Page, n: &[u64]) -> io::Result<()> {
    let mut count = 0u64;
    let mut same = true;
    for lsn in at(n, 0)..at(n, 0).saturating_add(at(n, 2)) {
        let made = Made {
            lsn,
            txn: 1,
            key: 0,
        };
        let (there, equal) = put_both(rt.alloc(), page, made, &put_of(at(n, 1), byte(lsn)));
        same = same && equal;
        if let Some(Ok(())) = there {
            count = count.saturating_add(1);
        }
    }
    print!(rt; ": {count} put")?;
    print_same(rt, same)
}

/// Prints a row: the length of its value and its first byte.
fn print_row(rt: &HostRuntime, row: &Option<Result<Row, TooOld>>) -> io::Result<()> {
    match row {
        Some(Ok(Row::Found(value))) => {
            print!(rt; ": {} bytes of {:02x}", value.len, value.bytes[0])
        }
        Some(Ok(Row::Absent)) => print!(rt; ": absent"),
        Some(Err(old)) => print!(rt; ": too old, {} below {}", old.snapshot, old.horizon),
        None => print!(rt; ": no page"),
    }
}

/// Prints the LSN, the horizon and the versions of a page, as LSN, transaction, Commit and key.
fn show(rt: &HostRuntime, page: &Page) -> io::Result<()> {
    print!(rt;
        ": page {}, LSN {}, horizon {}",
        page.value.page, page.value.lsn, page.value.horizon
    )?;
    for w in page.value.versions.as_slice() {
        print!(rt; " {}:{}:{}:{}", w.lsn, w.txn, w.commit, w.key)?;
    }
    print_same(rt, is_same(page))
}

/// Plays a step, and prints what it gave.
fn step(rt: &HostRuntime, page: &mut Page, verb: &str, n: &[u64]) -> io::Result<()> {
    match verb {
        "page" => *page = empty(rt.alloc(), n),
        "put" => put(rt, page, n, &put_of(at(n, 3), byte(at(n, 4))))?,
        "del" => put(rt, page, n, &Change::Del)?,
        "fill" => fill(rt, page, n)?,
        "stamp" => print_same(rt, stamp_both(rt.alloc(), page, at(n, 0), at(n, 1)))?,
        "abort" => print_same(rt, abort_both(rt.alloc(), page, at(n, 0), at(n, 1)))?,
        "trim" => print_same(rt, trim_both(rt.alloc(), page, at(n, 0), at(n, 1)))?,
        "row" => {
            let (row, same) = row_both(
                rt.alloc(),
                page,
                long(at(n, 0)),
                at(n, 1),
                n.get(2).copied(),
            );
            print_row(rt, &row)?;
            print_same(rt, same)?;
        }
        "show" => show(rt, page)?,
        "draw" => drawing::play(rt, page, n)?,
        _ => {}
    }
    Ok(())
}

/// Plays a line.
pub fn play(rt: &HostRuntime, page: &mut Page, line: &str) -> io::Result<()> {
    let n = numbers(rt.alloc(), line)?;
    let verb = line.split_whitespace().next().unwrap_or("");
    step(rt, page, verb, &n)
}
