//! Whether a Trim takes a version off a page.
ghost use Rattle.std.specs.Prelude.{◌≡◌, ◌==◌, ◌&&◌};
ghost use Rattle.std.specs.List.{list_any};
ghost use Rattle.ag_model.specs.Page.{is_before, is_committed_at, is_del, is_trimmed_at};
ghost use Rattle.ag_rules.specs.TrimEvent.{trims_some};

use crate::order::{is_before, is_committed_at};
use ag_model::value::{Change, PageValue, Version};

/// Whether a change deletes its key.
fn is_del(change: &Change) -> bool
    ensures { result ≡ is_del change.now }
{
    matches!(change, Change::Del)
}

/// Whether a version of the same key that is committed at most at the horizon comes after a version.
fn follows(horizon: u64, v: &Version, w: &Version) -> bool
    ensures { result ≡ ((w.now.key == v.now.key) && is_committed_at horizon w.now && is_before v.now w.now) }
{
    w.key == v.key && is_committed_at(horizon, w) && is_before(v, w)
}

/// Whether one of these does.
fn is_followed(horizon: u64, versions: &[Version], v: &Version) -> bool
    ensures { result ≡ list_any (λ w. (w.key == v.now.key) && is_committed_at horizon w && is_before v.now w) versions.now }
{
    versions.iter().any(|w| follows(horizon, v, w))
}

/// Whether a Trim to this horizon leaves out a version of a page with these.
fn is_trimmed(versions: &[Version], v: &Version, horizon: u64) -> bool
    ensures { result ≡ is_trimmed_at versions.now v.now horizon }
{
    if v.commit == 0 {
        return false;
    }
    is_followed(horizon, versions, v) || (is_del(&v.change) && is_committed_at(horizon, v))
}

/// Whether a Trim to this horizon leaves out a version of a page.
pub(crate) fn trims_some(v: &PageValue, horizon: u64) -> bool
    ensures { result ≡ trims_some v.now horizon }
{
    let versions = v.versions.as_slice();
    versions.iter().any(|w| is_trimmed(versions, w, horizon))
}
