//! The synchronised set, which moves only for a primary of the store's term.
ghost use Rattle.std.specs.Prelude.{◌≡◌, ◌↔◌, ◌<◌, IsOk, IfErr, OnOk, OnErr};
ghost use Rattle.ag_rules.specs.SyncEvent.{with_synced, without_synced};

use crate::members::{with_member, without_member};
use ag_model::config::Register;

/// Why the store refuses. It stays as it was.
#[derive(Clone, Copy, Debug, PartialEq, Eq)]
pub enum ClusterFault {
    /// The term of who asks isn't the store's.
    StaleTerm { asked: u64, now: u64 },
    /// The replica isn't in the synchronised set.
    NotSynchronised,
}

/// Refuses a term that isn't the store's.
pub(crate) fn compare(r: &Register, term: u64) -> Result<(), ClusterFault>
    ensures some { IsOk result ↔ (term ≡ r.now.term) }
    ensures stale { IfErr result (λ e. e ≡ ClusterFault.StaleTerm term r.now.term) }
{
    if term == r.term {
        Ok(())
    } else {
        Err(ClusterFault::StaleTerm {
            asked: term,
            now: r.term,
        })
    }
}

/// Puts a replica into the synchronised set.
pub fn add_sync(r: &mut Register, term: u64, n: u8) -> Result<(), ClusterFault>
    requires { n < 16 }
    ensures ok { OnOk result (r.new ≡ with_synced r.old n) }
    ensures err { OnErr result (r.new ≡ r.old) }
    ensures some { IsOk result ↔ (term ≡ r.old.term) }
    ensures stale { IfErr result (λ e. e ≡ ClusterFault.StaleTerm term r.old.term) }
{
    compare(r, term)?;
    r.synced = with_member(r.synced, n);
    Ok(())
}

/// Takes a replica out of the synchronised set: it is no longer waited for.
pub fn remove_sync(r: &mut Register, term: u64, n: u8) -> Result<(), ClusterFault>
    requires { n < 16 }
    ensures ok { OnOk result (r.new ≡ without_synced r.old n) }
    ensures err { OnErr result (r.new ≡ r.old) }
    ensures some { IsOk result ↔ (term ≡ r.old.term) }
    ensures stale { IfErr result (λ e. e ≡ ClusterFault.StaleTerm term r.old.term) }
{
    compare(r, term)?;
    r.synced = without_member(r.synced, n);
    Ok(())
}
