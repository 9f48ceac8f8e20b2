//! Steps that are drawn from a seed.
use crate::building::put_of;
use crate::edits::{Made, abort_both, put_both, row_both, stamp_both, trim_both};
use crate::page::Page;
use crate::words::{at, byte, long};
use ag_model::value::Change;
use std::alloc::Global;
use std::io;

/// What numbers are drawn from.
#[derive(Drop)]
struct Draws {
    state: u64,
}

/// A number below the bound, or 0 where that is 0.
fn draw(draws: &mut Draws, bound: u64) -> u64 {
    draws.state = draws
        .state
        .wrapping_mul(6364136223846793005)
        .wrapping_add(1442695040888963407);
    (draws.state >> 33).checked_rem(bound).unwrap_or(0)
}

/// What came of drawn steps.
#[derive(Drop)]
struct Counts {
    same: u64,
    full: u64,
    rows: u64,
}

/// Puts a version on, and counts.
fn put_drawn(
    alloc: Global,
    page: &mut Page,
    made: Made,
    change: &Change,
    counts: &mut Counts,
) -> bool {
    let (there, same) = put_both(alloc, page, made, change);
    if let Some(Err(_)) = there {
        counts.full = counts.full.saturating_add(1);
    }
    same
}

/// One step of so many kinds, of which the last four are deletions, Commits, Aborts and Trims. Its LSN is given.
fn step(
    alloc: Global,
    page: &mut Page,
    draws: &mut Draws,
    counts: &mut Counts,
    n: &[u64],
    lsn: u64,
) -> bool {
    let kinds = at(n, 3);
    let left = kinds.saturating_sub(draw(draws, kinds));
    let txn = draw(draws, 5).saturating_add(1);
    let key = long(draw(draws, at(n, 2)));
    let made = Made { lsn, txn, key };
    match left {
        4 => put_drawn(alloc, page, made, &Change::Del, counts),
        3 => stamp_both(alloc, page, lsn, txn),
        2 => abort_both(alloc, page, lsn, txn),
        1 => trim_both(alloc, page, lsn, draw(draws, lsn)),
        _ => {
            let change = put_of(draw(draws, 65), byte(lsn));
            put_drawn(alloc, page, made, &change, counts)
        }
    }
}

/// Reads each key at a drawn snapshot, also as one of the transactions, and counts.
fn read_rows(
    alloc: Global,
    page: &Page,
    draws: &mut Draws,
    counts: &mut Counts,
    keys: u64,
    lsn: u64,
) {
    for key in 0..keys {
        let snapshot = draw(draws, lsn.saturating_add(1));
        let own = draw(draws, 6);
        let own = if own == 0 { None } else { Some(own) };
        if row_both(alloc, page, long(key), snapshot, own).1 {
            counts.rows = counts.rows.saturating_add(1);
        }
    }
}

/// Plays steps from a seed: how many, on how many keys, and of how many kinds.
pub fn play(rt: &HostRuntime, page: &mut Page, n: &[u64]) -> io::Result<()> {
    let mut draws = Draws { state: at(n, 0) };
    let mut counts = Counts {
        same: 0,
        full: 0,
        rows: 0,
    };
    for _ in 0..at(n, 1) {
        let lsn = page.value.lsn.saturating_add(1);
        if step(rt.alloc(), page, &mut draws, &mut counts, n, lsn) {
            counts.same = counts.same.saturating_add(1);
        }
        read_rows(rt.alloc(), page, &mut draws, &mut counts, at(n, 2), lsn);
    }
    let (same, full, rows) = (counts.same, counts.full, counts.rows);
    let versions = page.value.versions.len();
    print!(rt; ": {same} steps and {rows} rows the same, {full} full, {versions} versions left")
}
