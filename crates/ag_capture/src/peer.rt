//! What a primary knows of one replica.
ghost use Rattle.std.specs.Prelude.{◌≡◌};

use std::marker::Model;

/// What is known of a replica: whether it is connected, the LSN that it is sent next, the LSN up to which it has hardened,
/// and the least LSN that it may still read.
#[derive(Clone, Copy, Debug)]
pub(crate) struct PeerState {
    pub(crate) connected: bool,
    pub(crate) next: u64,
    pub(crate) hardened: u64,
    pub(crate) low: u64,
}

impl Model for PeerState {
    ghost use Rattle.ag_rules.specs.Replica.{Peer};
    ghost use Rattle.std.specs.Prelude.{refl};

    ghost Value = { Peer };

    ghost view = { λ p. record { connected = p.connected; next = p.next; hardened = p.hardened; low = p.low } };

    ghost inverse = { λ p. record { connected = p.connected; next = p.next; hardened = p.hardened; low = p.low } };

    ghost inverse_ok = { λ a h. refl };
}

/// A replica of which nothing is known.
pub(crate) const NOBODY: PeerState = PeerState {
    connected: false,
    next: 0,
    hardened: 0,
    low: 0,
};
