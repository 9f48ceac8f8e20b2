//! Versions that no reader needs any more.
ghost use Rattle.std.specs.Prelude.{◌≡◌, ◌&&◌, not};
ghost use Rattle.std.specs.List.{filter, list_any};
ghost use Rattle.ag_model.specs.declared.record.Record.TheVariants.{Trim};
ghost use Rattle.ag_model.specs.Page.{is_committed_at, is_del};
ghost use Rattle.ag_version.specs.Edits.{left_by_trim, after_trim};
ghost use Rattle.ag_version.specs.Steps.{Redoes};
ghost use Rattle.ag_version.specs.Trimming.{follows, is_followed};

use crate::order::{is_before, is_committed_at};
use ag_model::value::{Change, PageValue, Version, VersionList};
use core::mem::replace_with;

/// Whether another version of the same key that is committed at most at the horizon comes after a version.
fn follows(horizon: u64, v: &Version, w: &Version) -> bool
    ensures { result ≡ follows horizon v.now w.now }
{
    w.key == v.key && is_committed_at(horizon, w) && is_before(v, w)
}

/// Whether one of these does.
fn is_followed(horizon: u64, versions: &[Version], v: &Version) -> bool
    ensures { result ≡ is_followed horizon versions.now v.now }
{
    versions.iter().any(|w| follows(horizon, v, w))
}

/// Removes each version that another one of its key, committed at most at the horizon, follows. One
/// that is removed never decides alone: what follows it follows those before it too.
fn remove_followed(horizon: u64, items: &mut Vec<Version>)
    ensures { items.new.items ≡ filter (λ v. not (is_followed horizon items.old.items v)) items.old.items }
{
    let mut i = 0;
    while i < items.len() {
        let version = items[i];
        if is_followed(horizon, items, &version) {
            items.remove(i);
        } else {
            i += 1;
        }
    }
}

/// Whether a change deletes its key.
fn is_del(change: &Change) -> bool
    ensures { result ≡ is_del change.now }
{
    matches!(change, Change::Del)
}

/// Removes each deletion that is committed at most at the horizon.
fn remove_deletions(horizon: u64, items: &mut Vec<Version>)
    ensures { items.new.items ≡ filter (λ v. not (is_del v.change && is_committed_at horizon v)) items.old.items }
{
    items.retain(|v| !(is_del(&v.change) && is_committed_at(horizon, v)));
}

/// The versions that a Trim to a horizon leaves.
fn trimmed(versions: VersionList, horizon: u64) -> (VersionList, ())
    ensures { result.0 ≡ left_by_trim horizon versions }
{
    let mut items = versions.into_vec();
    remove_followed(horizon, &mut items);
    remove_deletions(horizon, &mut items);
    (VersionList::from_vec(items), ())
}

/// Trims a page to a horizon, an LSN: what a Trim at this LSN does.
pub fn trim(v: &mut PageValue, lsn: u64, horizon: u64)
    ensures edit { v.new ≡ after_trim lsn horizon v.old }
    ensures redo { Redoes lsn (Trim v.old.page horizon) v.old v.new }
{
    replace_with(&mut v.versions, horizon, trimmed);
    v.horizon = v.horizon.max(horizon);
    v.lsn = lsn;
}
