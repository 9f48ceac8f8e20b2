//! The row that a reader finds.
ghost use Rattle.std.specs.Prelude.{◌≡◌, ◌<◌, ◌≤◌, ◌==◌, ◌&&◌, ◌++◌, ◌∷◌, [], Ok, Err, option_to_list};
ghost use Rattle.std.specs.List.{filter};
ghost use Rattle.ag_model.specs.Page.{greatest, is_committed_at, pick, row_of};
ghost use Rattle.ag_version.specs.Picking.{is_own, own_versions, row_for};

use crate::order::{is_before, is_committed_at};
use ag_model::value::{Change, PageValue, Row, TooOld, Version};

/// The greater of the greatest version so far and one more.
fn later(best: Option<Version>, v: Version) -> Option<Version>
    ensures { option_to_list result ≡ greatest (option_to_list best ++ v ∷ []) }
{
    match best {
        Some(old) => Some(if is_before(&old, &v) { v } else { old }),
        None => Some(v),
    }
}

/// Whether a version is of this key and of the reader's own transaction.
fn is_own(own: Option<u64>, key: u32, v: &Version) -> bool
    ensures { result ≡ ((v.now.key == key) && is_own own v.now) }
{
    match own {
        None => false,
        Some(txn) => v.key == key && v.txn == txn,
    }
}

/// Whether a version is of this key and committed at most at a snapshot.
fn is_visible(snapshot: u64, key: u32, v: &Version) -> bool
    ensures { result ≡ ((v.now.key == key) && is_committed_at snapshot v.now) }
{
    v.key == key && is_committed_at(snapshot, v)
}

/// The last version of a key that the reader's own transaction made.
fn last_own(versions: &[Version], key: u32, own: Option<u64>) -> Option<Version>
    ensures { option_to_list result ≡ greatest (own_versions own key versions.now) }
{
    let mut best = None;
    for version in versions {
        if is_own(own, key, version) {
            best = later(best, *version);
        }
    }
    best
}

/// The last version of a key that is committed at most at a snapshot.
fn last_committed(versions: &[Version], key: u32, snapshot: u64) -> Option<Version>
    ensures { option_to_list result ≡ greatest (filter (λ w. (w.key == key) && is_committed_at snapshot w) versions.now) }
{
    let mut best = None;
    for version in versions {
        if is_visible(snapshot, key, version) {
            best = later(best, *version);
        }
    }
    best
}

/// The row that a change leaves.
fn row_of(change: &Change) -> Row
    ensures { result ≡ row_of change.now }
{
    match change {
        Change::Put(value) => Row::Found(*value),
        Change::Del => Row::Absent,
    }
}

/// The row of a key at a snapshot.
#[tactic(auto, unfolding(ag_model::specs::Page::pick))]
fn pick(v: &PageValue, key: u32, snapshot: u64) -> Row
    ensures { result ≡ pick v.now key snapshot }
{
    match last_committed(v.versions.as_slice(), key, snapshot) {
        Some(version) => row_of(&version.change),
        None => Row::Absent,
    }
}

/// The row of a key at a snapshot, an LSN, as a reader sees it whose own transaction, if it has one,
/// is not committed yet: its own versions come after all others.
pub fn row_at(v: &PageValue, key: u32, snapshot: u64, own: Option<u64>) -> Result<Row, TooOld>
    ensures row { v.now.horizon ≤ snapshot → result ≡ Ok (row_for v.now key snapshot own) }
    ensures too_old { snapshot < v.now.horizon → result ≡ Err (record { snapshot = snapshot; horizon = v.now.horizon }) }
{
    if snapshot < v.horizon {
        return Err(TooOld {
            snapshot,
            horizon: v.horizon,
        });
    }
    match last_own(v.versions.as_slice(), key, own) {
        Some(version) => Ok(row_of(&version.change)),
        None => Ok(pick(v, key, snapshot)),
    }
}
