//! The order of (commit, LSN) among versions.
ghost use Rattle.std.specs.Prelude.{◌≡◌};
ghost use Rattle.ag_model.specs.Page.{is_before, is_committed_at};

use ag_model::value::Version;

/// Whether a version comes before another in the order of (commit, LSN), where the uncommitted ones come last.
pub(crate) fn is_before(v: &Version, w: &Version) -> bool
    ensures { result ≡ is_before v.now w.now }
{
    if v.commit == 0 {
        w.commit == 0 && v.lsn < w.lsn
    } else if w.commit == 0 {
        true
    } else if v.commit == w.commit {
        v.lsn < w.lsn
    } else {
        v.commit < w.commit
    }
}

/// Whether a version is committed at most at a horizon.
pub(crate) fn is_committed_at(horizon: u64, v: &Version) -> bool
    ensures { result ≡ is_committed_at horizon v.now }
{
    v.commit != 0 && v.commit <= horizon
}
