//! What is asked of the versions of a page.
ghost use Rattle.std.specs.Prelude.{◌≡◌, ◌==◌, ◌&&◌, ◌++◌, ◌∷◌, [], not, option_to_list};
ghost use Rattle.std.specs.List.{filter};
ghost use Rattle.ag_model.specs.Page.{greatest, is_committed_at, pick, row_of};
ghost use Rattle.ag_rules.specs.GetEvent.{row_seen};
ghost use Rattle.ag_rules.specs.PutEvent.{is_locked, conflicts, page_is_full, last_commit};
ghost use Rattle.ag_txn.specs.Faults.{IsChecked};

use crate::fault::TxnFault;
use crate::order::{is_before, is_committed_at};
use ag_model::value::{Change, PageValue, Row, Version};

/// Whether a version of the key is uncommitted and of another transaction.
fn is_held(version: &Version, txn: u64, key: u32) -> bool
    ensures { result ≡ ((version.now.key == key) && ((version.now.commit == 0) && not (version.now.txn == txn))) }
{
    version.key == key && (version.commit == 0 && version.txn != txn)
}

/// Tells whether another transaction has the key.
pub(crate) fn check_lock(versions: &[Version], txn: u64, key: u32) -> Result<(), TxnFault>
    ensures { IsChecked (is_locked txn key versions.now) result }
{
    for version in versions {
        if is_held(version, txn, key) {
            return Err(TxnFault::Locked { txn: version.txn });
        }
    }
    Ok(())
}

/// The greatest commit of a key, an LSN, or 0.
fn last_commit(versions: &[Version], key: u32) -> u64
    ensures { result ≡ last_commit key versions.now }
{
    let mut last = 0;
    for version in versions {
        if version.key == key {
            last = last.max(version.commit);
        }
    }
    last
}

/// Tells whether the key was committed above a snapshot.
pub(crate) fn check_conflict(versions: &[Version], key: u32, snapshot: u64) -> Result<(), TxnFault>
    ensures { IsChecked (conflicts key snapshot versions.now) result }
{
    let commit = last_commit(versions, key);
    if snapshot < commit {
        return Err(TxnFault::Conflict { commit, snapshot });
    }
    Ok(())
}

/// Tells whether a page with so many bytes free has no room.
pub(crate) fn check_room(need: u32, free: u32) -> Result<(), TxnFault>
    ensures { IsChecked (page_is_full need free) result }
{
    if free < need {
        return Err(TxnFault::PageFull { need, free });
    }
    Ok(())
}

/// Whether a version is of the key and of the transaction itself.
fn is_own(version: &Version, txn: u64, key: u32) -> bool
    ensures { result ≡ ((version.now.txn == txn) && (version.now.key == key)) }
{
    version.txn == txn && version.key == key
}

/// The row that a change leaves.
fn row_of(change: &Change) -> Row
    ensures { result ≡ row_of change.now }
{
    match change {
        Change::Put(value) => Row::Found(*value),
        Change::Del => Row::Absent,
    }
}

/// The greater of the greatest version so far and one more.
fn later(best: Option<Version>, v: Version) -> Option<Version>
    ensures { option_to_list result ≡ greatest (option_to_list best ++ v ∷ []) }
{
    match best {
        Some(old) => Some(if is_before(&old, &v) { v } else { old }),
        None => Some(v),
    }
}

/// Whether a version is of this key and committed at most at a snapshot.
fn is_visible(snapshot: u64, key: u32, v: &Version) -> bool
    ensures { result ≡ ((v.now.key == key) && is_committed_at snapshot v.now) }
{
    v.key == key && is_committed_at(snapshot, v)
}

/// The last version of a key that is committed at most at a snapshot.
fn last_committed(versions: &[Version], key: u32, snapshot: u64) -> Option<Version>
    ensures { option_to_list result ≡ greatest (filter (λ w. (w.key == key) && is_committed_at snapshot w) versions.now) }
{
    let mut best = None;
    for version in versions {
        if is_visible(snapshot, key, version) {
            best = later(best, *version);
        }
    }
    best
}

/// The row of a key at a snapshot.
#[tactic(auto, unfolding(ag_model::specs::Page::pick))]
fn row_picked(v: &PageValue, key: u32, snapshot: u64) -> Row
    ensures { result ≡ pick v.now key snapshot }
{
    match last_committed(v.versions.as_slice(), key, snapshot) {
        Some(version) => row_of(&version.change),
        None => Row::Absent,
    }
}

/// The row of a key that a transaction sees on a page.
pub(crate) fn row_seen(v: &PageValue, txn: u64, key: u32, snapshot: u64) -> Row
    ensures { result ≡ row_seen v.now txn key snapshot }
{
    let mut row = row_picked(v, key, snapshot);
    for version in v.versions.as_slice() {
        if is_own(version, txn, key) {
            row = row_of(&version.change);
        }
    }
    row
}
