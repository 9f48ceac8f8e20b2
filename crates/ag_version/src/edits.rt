//! Versions that are put on a page, stamped and taken off again.
ghost use Rattle.std.specs.Prelude.{◌≡◌, ◌<◌, ◌≤◌, ℕ, List, map, Err, OnOk, OnErr, IfErr};
ghost use Rattle.ag_model.specs.declared.record.Record.TheVariants.{Commit, Abort};
ghost use Rattle.ag_model.specs.Sizes.{change_size, free_bytes};
ghost use Rattle.ag_version.specs.declared.fault.PutFault.TheVariants.{PageFull, NoMemory};
ghost use Rattle.ag_version.specs.Edits.{stamped, without_txn, after_change, after_commit, after_abort};
ghost use Rattle.ag_version.specs.Steps.{record_of, Redoes};

use crate::fault::PutFault;
use ag_model::value::{Change, PageValue, Version, VersionList};
use core::mem::replace_with;

/// The bytes that a page has for its versions.
const ROOM: u32 = 8144;

/// How many bytes a change takes on its page.
fn size(change: &Change) -> u32
    ensures { result ≡ change_size change.now }
{
    match change {
        Change::Put(value) => 30 + u32::from(value.len),
        Change::Del => 30,
    }
}

/// How many bytes a page has free.
fn free(v: &PageValue) -> u32
    ensures { result ≡ free_bytes v.now }
{
    let mut free = ROOM;
    for version in v.versions.as_slice() {
        free = free.saturating_sub(size(&version.change));
    }
    free
}

/// Puts a version on the page of its key: what a Put or a Del at this LSN does.
pub fn put(v: &mut PageValue, lsn: u64, txn: u64, key: u32, change: &Change) -> Result<(), PutFault>
    ensures ok { OnOk result (v.new ≡ after_change lsn txn key change.now v.old) }
    ensures redo { OnOk result (Redoes lsn (record_of txn key change.now) v.old v.new) }
    ensures err { OnErr result (v.new ≡ v.old) }
    ensures full { free_bytes v.old < change_size change.now → result ≡ Err (PageFull (change_size change.now) (free_bytes v.old)) }
    ensures full_only { change_size change.now ≤ free_bytes v.old → IfErr result (λ e. e ≡ NoMemory) }
{
    let need = size(change);
    let free = free(v);
    if need > free {
        return Err(PutFault::PageFull { need, free });
    }
    v.versions.push(Version {
        lsn,
        txn,
        commit: 0,
        key,
        change: *change,
    })?;
    v.lsn = lsn;
    Ok(())
}

/// The versions with the LSN of their transaction's Commit.
fn stamped(versions: VersionList, commit: (u64, u64)) -> (VersionList, ())
    ensures { result.0 ≡ map (stamped commit.0 commit.1) versions }
{
    let (lsn, txn) = commit;
    let mut items = versions.into_vec();
    for version in items.iter_mut() {
        if version.txn == txn {
            version.commit = lsn;
        }
    }
    (VersionList::from_vec(items), ())
}

/// Stamps the versions of a transaction: what its Commit at this LSN does on a page that it lists.
pub fn stamp(v: &mut PageValue, lsn: u64, txn: u64)
    ensures edit { v.new ≡ after_commit lsn txn v.old }
    ensures redo { (listed : List ℕ) → Redoes lsn (Commit txn listed) v.old v.new }
{
    replace_with(&mut v.versions, (lsn, txn), stamped);
    v.lsn = lsn;
}

/// The versions of all other transactions.
fn without_txn(versions: VersionList, txn: u64) -> (VersionList, ())
    ensures { result.0 ≡ without_txn txn versions }
{
    let mut items = versions.into_vec();
    items.retain(|version| version.txn != txn);
    (VersionList::from_vec(items), ())
}

/// Takes the versions of a transaction off: what its Abort at this LSN does on a page that it lists.
pub fn abort(v: &mut PageValue, lsn: u64, txn: u64)
    ensures edit { v.new ≡ after_abort lsn txn v.old }
    ensures redo { (listed : List ℕ) → Redoes lsn (Abort txn listed) v.old v.new }
{
    replace_with(&mut v.versions, txn, without_txn);
    v.lsn = lsn;
}
