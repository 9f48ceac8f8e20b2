//! The moves of the store to a new term.
ghost use Rattle.std.specs.Prelude.{◌≡◌, ◌≢◌, ◌↔◌, ◌<◌, ◌≤◌, ◌+◌, ◌^◌, true, false, IsOk, IfOk, OnOk, OnErr};
ghost use Rattle.ag_rules.specs.Group.{has};
ghost use Rattle.ag_rules.specs.Failover.{moved, moved_by_force};
ghost use Rattle.ag_rules.specs.ResumeEvent.{with_resumed};

use crate::members::{first_members, has_member, without_member};
use crate::synced::{ClusterFault, compare};
use ag_model::config::Register;

/// Takes a replica out of the suspended set.
pub fn resume(r: &mut Register, n: u8)
    requires { n < 16 }
    ensures { r.new ≡ with_resumed r.old n }
{
    r.suspended = without_member(r.suspended, n);
}

/// Makes a replica the primary of the next term, which the answer is. Nobody is synchronised then, and the replica isn't
/// suspended.
fn move_to(r: &mut Register, n: u8) -> u64
    requires member { n < 16 }
    requires term { r.old.term < 2 ^ 63 }
    ensures after { r.new ≡ moved r.old n }
    ensures term { result ≡ r.old.term + 1 }
{
    r.term += 1;
    r.primary = n;
    r.synced = 0;
    r.suspended = without_member(r.suspended, n);
    r.term
}

/// The same for a synchronised replica, where the term of who asks is the store's.
fn move_to_synced(r: &mut Register, term: u64, n: u8) -> Result<u64, ClusterFault>
    requires member { n < 16 }
    requires term { r.old.term < 2 ^ 63 }
    ensures ok { OnOk result (r.new ≡ moved r.old n) }
    ensures new_term { IfOk result (λ new. new ≡ r.old.term + 1) }
    ensures err { OnErr result (r.new ≡ r.old) }
    ensures some { IsOk result ↔ ((term ≡ r.old.term) × (has r.old.synced n ≡ true)) }
    ensures stale { (result ≡ Err (ClusterFault.StaleTerm term r.old.term)) ↔ (term ≢ r.old.term) }
    ensures not_synchronised { (result ≡ Err ClusterFault.NotSynchronised) ↔ ((term ≡ r.old.term) × (has r.old.synced n ≡ false)) }
{
    compare(r, term)?;
    if !has_member(r.synced, n) {
        return Err(ClusterFault::NotSynchronised);
    }
    Ok(move_to(r, n))
}

/// A planned failover to a synchronised replica. The answer is the new term.
pub fn planned(r: &mut Register, term: u64, n: u8) -> Result<u64, ClusterFault>
    requires member { n < 16 }
    requires term { r.old.term < 2 ^ 63 }
    ensures ok { OnOk result (r.new ≡ moved r.old n) }
    ensures new_term { IfOk result (λ new. new ≡ r.old.term + 1) }
    ensures err { OnErr result (r.new ≡ r.old) }
    ensures some { IsOk result ↔ ((term ≡ r.old.term) × (has r.old.synced n ≡ true)) }
    ensures stale { (result ≡ Err (ClusterFault.StaleTerm term r.old.term)) ↔ (term ≢ r.old.term) }
    ensures not_synchronised { (result ≡ Err ClusterFault.NotSynchronised) ↔ ((term ≡ r.old.term) × (has r.old.synced n ≡ false)) }
{
    move_to_synced(r, term, n)
}

/// An automatic failover to a synchronised replica. The answer is the new term.
pub fn automatic(r: &mut Register, term: u64, n: u8) -> Result<u64, ClusterFault>
    requires member { n < 16 }
    requires term { r.old.term < 2 ^ 63 }
    ensures ok { OnOk result (r.new ≡ moved r.old n) }
    ensures new_term { IfOk result (λ new. new ≡ r.old.term + 1) }
    ensures err { OnErr result (r.new ≡ r.old) }
    ensures some { IsOk result ↔ ((term ≡ r.old.term) × (has r.old.synced n ≡ true)) }
    ensures stale { (result ≡ Err (ClusterFault.StaleTerm term r.old.term)) ↔ (term ≢ r.old.term) }
    ensures not_synchronised { (result ≡ Err ClusterFault.NotSynchronised) ↔ ((term ≡ r.old.term) × (has r.old.synced n ≡ false)) }
{
    move_to_synced(r, term, n)
}

/// A forced failover to any replica, of so many: all others are suspended until each is resumed. The answer is the new
/// term.
pub fn forced(r: &mut Register, n: u8, replicas: u8) -> u64
    requires member { n < 16 }
    requires count { replicas ≤ 16 }
    requires term { r.old.term < 2 ^ 63 }
    ensures after { r.new ≡ moved_by_force r.old n replicas }
    ensures term { result ≡ r.old.term + 1 }
{
    let term = move_to(r, n);
    r.suspended = without_member(first_members(replicas), n);
    term
}
