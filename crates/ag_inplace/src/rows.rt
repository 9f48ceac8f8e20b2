//! The row that a reader finds.
ghost use Rattle.std.specs.Prelude.{◌≡◌, ◌<◌, ◌≤◌, ◌==◌, ◌&&◌, ◌++◌, ◌∷◌, List, [], Ok, Err, option_to_list};
ghost use Rattle.std.specs.List.{filter};
ghost use Rattle.ag_model.specs.declared.value.Version.{Version};
ghost use Rattle.ag_model.specs.declared.value.PageValue.{PageValue};
ghost use Rattle.ag_model.specs.Page.{greatest, is_before, is_committed_at, pick, row_of};
ghost use Rattle.ag_page.specs.Image.{image_bytes};
ghost use Rattle.ag_version.specs.Picking.{own_versions, row_for};
ghost use Rattle.ag_inplace.specs.Spelled.{Spells, IsPage};
ghost use Rattle.ag_inplace.specs.Entries.{StandsAt, IsEntry};
ghost use Rattle.ag_inplace.specs.Listing.{Lists, IsListed};

use crate::directory::{Directory, directory_of};
use crate::entries::{commit_in, key_in, txn_in, version_in};
use crate::header::horizon_in;
use ag_model::value::{Change, Row, TooOld, Version};
use ag_page::Image;

/// Whether a version comes before another in the order of (commit, LSN), where the uncommitted ones come last.
fn is_before(v: &Version, w: &Version) -> bool
    ensures { result ≡ is_before v.now w.now }
{
    if v.commit == 0 {
        w.commit == 0 && v.lsn < w.lsn
    } else if w.commit == 0 {
        true
    } else if v.commit == w.commit {
        v.lsn < w.lsn
    } else {
        v.commit < w.commit
    }
}

/// The greater of the greatest version so far and one more.
fn later(best: Option<Version>, v: Version) -> Option<Version>
    ensures { option_to_list result ≡ greatest (option_to_list best ++ v ∷ []) }
{
    match best {
        Some(old) => Some(if is_before(&old, &v) { v } else { old }),
        None => Some(v),
    }
}

/// Whether the version at a place is of this key and of this transaction.
fn is_own(i: &Image, at: usize, key: u32, txn: u64) -> bool
    requires { IsEntry (image_bytes i.now) at }
    ensures { (w : Version) → StandsAt (image_bytes i.now) at w → result ≡ ((w.key == key) && (w.txn == txn)) }
{
    key_in(i, at) == key && txn_in(i, at) == txn
}

/// Whether the version at a place is of this key and committed at most at a snapshot.
fn is_visible(i: &Image, at: usize, key: u32, snapshot: u64) -> bool
    requires { IsEntry (image_bytes i.now) at }
    ensures { (w : Version) → StandsAt (image_bytes i.now) at w → result ≡ ((w.key == key) && is_committed_at snapshot w) }
{
    if key_in(i, at) != key {
        return false;
    }
    let commit = commit_in(i, at);
    commit != 0 && commit <= snapshot
}

/// The last version of a key that this transaction made.
fn last_own(i: &Image, d: &Directory, key: u32, txn: u64) -> Option<Version>
    requires { IsListed (image_bytes i.now) d.now }
    ensures { (versions : List Version) → Lists (image_bytes i.now) d.now versions → option_to_list result ≡ greatest (filter (λ w. (w.key == key) && (w.txn == txn)) versions) }
{
    let mut best = None;
    for k in 0..usize::from(d.count) {
        let at = usize::from(d.places[k]);
        if is_own(i, at, key, txn) {
            best = later(best, version_in(i, at));
        }
    }
    best
}

/// The last version of a key that is committed at most at a snapshot.
fn last_committed(i: &Image, d: &Directory, key: u32, snapshot: u64) -> Option<Version>
    requires { IsListed (image_bytes i.now) d.now }
    ensures { (versions : List Version) → Lists (image_bytes i.now) d.now versions → option_to_list result ≡ greatest (filter (λ w. (w.key == key) && is_committed_at snapshot w) versions) }
{
    let mut best = None;
    for k in 0..usize::from(d.count) {
        let at = usize::from(d.places[k]);
        if is_visible(i, at, key, snapshot) {
            best = later(best, version_in(i, at));
        }
    }
    best
}

/// The last version of a key that the reader's own transaction made, where it has one.
fn own_version(i: &Image, d: &Directory, key: u32, own: Option<u64>) -> Option<Version>
    requires { IsListed (image_bytes i.now) d.now }
    ensures { (versions : List Version) → Lists (image_bytes i.now) d.now versions → option_to_list result ≡ greatest (own_versions own key versions) }
{
    match own {
        Some(txn) => last_own(i, d, key, txn),
        None => None,
    }
}

/// The row that a change leaves.
fn row_of(change: &Change) -> Row
    ensures { result ≡ row_of change.now }
{
    match change {
        Change::Put(value) => Row::Found(*value),
        Change::Del => Row::Absent,
    }
}

/// The row of a key at a snapshot.
fn pick_in(i: &Image, d: &Directory, key: u32, snapshot: u64) -> Row
    requires { IsListed (image_bytes i.now) d.now }
    ensures { (v : PageValue) → Lists (image_bytes i.now) d.now v.versions → result ≡ pick v key snapshot }
{
    match last_committed(i, d, key, snapshot) {
        Some(version) => row_of(&version.change),
        None => Row::Absent,
    }
}

/// The row of a key at a snapshot, an LSN, as a reader sees it whose own transaction, if it has one,
/// is not committed yet: its own versions come after all others. It is the row that the value of the
/// page gives.
pub fn row_in(i: &Image, key: u32, snapshot: u64, own: Option<u64>) -> Result<Row, TooOld>
    requires { IsPage i.now }
    ensures row { (v : PageValue) → Spells i.now v → v.horizon ≤ snapshot → result ≡ Ok (row_for v key snapshot own) }
    ensures too_old { (v : PageValue) → Spells i.now v → snapshot < v.horizon → result ≡ Err (record { snapshot = snapshot; horizon = v.horizon }) }
{
    let horizon = horizon_in(i);
    if snapshot < horizon {
        return Err(TooOld { snapshot, horizon });
    }
    let d = directory_of(i);
    match own_version(i, &d, key, own) {
        Some(version) => Ok(row_of(&version.change)),
        None => Ok(pick_in(i, &d, key, snapshot)),
    }
}
