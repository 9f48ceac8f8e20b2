//! What a primary knows of another replica.
ghost use Rattle.std.specs.Prelude.{◌≡◌};

use std::marker::Model;

/// What a primary knows of another replica: the LSN that it sends next, how far the replica has hardened, and the least
/// LSN that it may still read.
#[derive(Debug, Drop)]
pub(crate) struct PeerState {
    pub(crate) connected: bool,
    pub(crate) next: u64,
    pub(crate) hardened: u64,
    pub(crate) low: u64,
}

impl Model for PeerState {
    ghost use Rattle.ag_rules.specs.Replica.{Peer};

    ghost Value = { Peer };

    ghost view = { λ p. record { connected = p.connected; next = p.next; hardened = p.hardened; low = p.low } };
}
