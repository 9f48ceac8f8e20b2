//! That what is known here stands for what a primary of the rules knows.
ghost use Rattle.std.specs.Prelude.{◌≡◌, ◌<◌, ◌≤◌, [], ◌∷◌, ℕ, List, length, false};
ghost use Rattle.ag_rules.specs.Replica.{Replica, Peer, end, with_peer, least};
ghost use Rattle.ag_rules.specs.Group.{has};
ghost use Rattle.ag_rules.specs.Plan.{Here};
ghost use Rattle.ag_rules.specs.AckEvent.{late};
ghost use Rattle.ag_rules.specs.TrimEvent.{limit_of};
ghost use Rattle.ag_capture.specs.Captured.{Captured, Knows, with_peer_of};
ghost use Rattle.ag_capture.specs.Late.{waited_for};

/// Who knows the same of each replica as a primary of the rules does so after a change of one, and waits for the same
/// replicas and limits a trim alike. Of the snapshots of the open transactions the least one alone limits a trim as all of
/// them do.
pub fn events_agree()
    ensures change { (c : Captured) (r : Replica) (m : ℕ) (new : Peer) → Knows c r → m < length c.peers → m < length r.leading.peers → Knows (with_peer_of c m new) (with_peer r m new) }
    ensures ack { (c : Captured) (h : Here) (r : Replica) (lsn : ℕ) → Knows c r → c.primary ≡ h.number → length h.modes ≤ 16
        → ((m : ℕ) → length h.modes ≤ m → has r.leading.synced m ≡ false) → late h r lsn ≡ waited_for c lsn (end r) r.leading.synced }
    ensures limit { (c : Captured) (r : Replica) (own : ℕ) (snapshots : List ℕ) → Knows c r → limit_of own snapshots r.leading.peers ≡ limit_of own snapshots c.peers }
    ensures least { (own snapshot : ℕ) (others : List ℕ) (peers : List Peer) → limit_of own (snapshot ∷ others) peers ≡ limit_of own (least (snapshot ∷ others) ∷ []) peers }
{}
