//! What a primary knows of all replicas.
ghost use Rattle.std.specs.Prelude.{◌≡◌, ◌<◌, ◌+◌, ◌-◌, ◌^◌, ◌∷◌, ◌++◌, [], ◌↔◌, ◌==◌, ℕ, List, Some, None, IfOk, IfErr, IsOk, IfSome, MatchOption, map, min, true, false, replicate, if◌then◌else◌};
ghost use Rattle.std.specs.List.{filter, fold};
ghost use Rattle.ag_model.specs.Proper.{RisesFrom};
ghost use Rattle.ag_rules.specs.Replica.{least, no_peer};
ghost use Rattle.ag_rules.specs.AckEvent.{first_of, is_local};
ghost use Rattle.ag_rules.specs.AckMessage.{known_peer};
ghost use Rattle.ag_rules.specs.HelloMessage.{greeted};
ghost use Rattle.ag_rules.specs.SendEvent.{next_block, sent_up_to};
ghost use Rattle.ag_rules.specs.SyncEvent.{unconnected};
ghost use Rattle.ag_rules.specs.TrimEvent.{connected_lows, limit_of};
ghost use Rattle.ag_capture.specs.Captured.{Captured, peer_of, with_peer_of, NeverFalls};
ghost use Rattle.ag_capture.specs.Late.{late_among, waited_for};
ghost use Rattle.ag_capture.specs.Limit.{snapshots_of};

use crate::ack::{Kind, NotYet};
use crate::blocks::block_end;
use crate::peer::{NOBODY, PeerState};
use ag_cluster::members::has_member;
use ag_model::record::Log;
use std::marker::Model;

/// What a primary knows of the replicas 0 to 15.
#[derive(Clone, Copy, Debug)]
pub struct Capture {
    primary: u8,
    peers: [PeerState; 16],
}

impl Model for Capture {
    ghost use Rattle.std.specs.Prelude.{◌≡◌, length, refl};
    ghost use Rattle.ag_capture.specs.Captured.{Captured};

    ghost Value = { Captured };

    ghost view = { λ c. record { primary = c.primary; peers = c.peers } };

    ghost invariant = { λ c. length c.peers ≡ 16 };

    ghost inverse = { λ c. record { primary = c.primary; peers = c.peers } };

    ghost inverse_ok = { λ a h. refl };
}

impl Capture {
    /// What a primary of this number knows at first: nobody is connected.
    pub fn new(primary: u8) -> Capture
        requires { primary < 16 }
        ensures { result ≡ record { primary = primary; peers = replicate 16 no_peer } }
    {
        Capture {
            primary,
            peers: [NOBODY; 16],
        }
    }

    /// Connects a replica whose log is the primary's up to the fork, an LSN.
    pub fn connect(&mut self, m: u8, fork: u64)
        requires member { m < 16 }
        requires room { fork < 2 ^ 64 - 1 }
        ensures { self.new ≡ with_peer_of self.old m (greeted fork) }
    {
        self.peers[usize::from(m)] = PeerState {
            connected: true,
            next: fork + 1,
            hardened: fork,
            low: 0,
        };
    }

    /// Gives the connection to a replica up. What is known of it stays.
    pub fn disconnect(&mut self, m: u8)
        requires { m < 16 }
        ensures after { self.new ≡ with_peer_of self.old m (unconnected (peer_of self.old m)) }
        ensures never_falls { NeverFalls self.old self.new }
    {
        let peer = &mut self.peers[usize::from(m)];
        peer.connected = false;
    }

    /// Whether a replica is connected.
    pub fn is_connected(&self, m: u8) -> bool
        requires { m < 16 }
        ensures { result ≡ (peer_of self.now m).connected }
    {
        let peer = &self.peers[usize::from(m)];
        peer.connected
    }

    /// The first and the last LSN of the block that a replica is sent next, where the log has it.
    ///
    /// The block is found by halving, in a log whose block ends rise, as those of a proper log do.
    pub fn next(&self, m: u8, log: &Log) -> Option<(u64, u64)>
        requires member { m < 16 }
        requires connected { (peer_of self.now m).connected ≡ true }
        ensures first { IfSome result (λ block. block.0 ≡ (peer_of self.now m).next) }
        ensures last { RisesFrom 0 log.now.ends → MatchOption result (next_block (peer_of self.now m) log.now.ends ≡ None) (λ block. next_block (peer_of self.now m) log.now.ends ≡ Some block.1) }
    {
        let peer = &self.peers[usize::from(m)];
        let last = block_end(log.ends.as_slice(), peer.next)?;
        Some((peer.next, last))
    }

    /// Notes that a replica was sent the log up to an LSN.
    pub fn sent(&mut self, m: u8, last: u64)
        requires member { m < 16 }
        requires connected { (peer_of self.old m).connected ≡ true }
        requires room { last < 2 ^ 64 - 1 }
        ensures after { self.new ≡ with_peer_of self.old m (sent_up_to last (peer_of self.old m)) }
        ensures never_falls { NeverFalls self.old self.new }
    {
        let peer = &mut self.peers[usize::from(m)];
        peer.next = last + 1;
    }

    /// Notes what a replica says of itself, and answers the LSN up to which it is known to have hardened.
    pub fn known(&mut self, m: u8, hardened: u64, low: u64) -> u64
        requires member { m < 16 }
        requires connected { (peer_of self.old m).connected ≡ true }
        ensures after { self.new ≡ with_peer_of self.old m (known_peer (peer_of self.old m) hardened low) }
        ensures hardened { result ≡ (peer_of self.new m).hardened }
        ensures never_falls { NeverFalls self.old self.new }
    {
        let peer = &mut self.peers[usize::from(m)];
        peer.hardened = peer.hardened.max(hardened);
        peer.low = peer.low.max(low);
        peer.hardened
    }

    /// The least member of a set that isn't known to have hardened an LSN.
    fn first_late(&self, lsn: u64, synced: u16) -> Option<u8>
        ensures { MatchOption result (late_among self.now lsn synced ≡ []) (λ m. (rest : List ℕ) × (late_among self.now lsn synced ≡ m ∷ rest)) }
    {
        for m in 0..16u8 {
            let peer = &self.peers[usize::from(m)];
            if has_member(synced, m) && peer.hardened < lsn {
                return Some(m);
            }
        }
        None
    }

    /// Whether a commit at an LSN may be confirmed, where the primary has hardened up to its own LSN and this is its copy of
    /// the synchronised set.
    pub fn may_ack(&self, lsn: u64, own: u64, synced: u16) -> Result<Kind, NotYet>
        ensures some { IsOk result ↔ (waited_for self.now lsn own synced ≡ []) }
        ensures not_yet { IfErr result (λ e. e ≡ record { lsn = lsn; who = first_of (waited_for self.now lsn own synced) }) }
        ensures kind { IfOk result (λ kind. kind ≡ (if is_local synced then Kind.Local else Kind.Sync)) }
    {
        if own < lsn {
            return Err(NotYet {
                lsn,
                who: self.primary,
            });
        }
        if let Some(who) = self.first_late(lsn, synced) {
            return Err(NotYet { lsn, who });
        }
        if synced == 0 {
            Ok(Kind::Local)
        } else {
            Ok(Kind::Sync)
        }
    }

    /// The least of an LSN and the lows of the replicas that are connected.
    fn least_low(&self, start: u64) -> u64
        ensures { result ≡ fold min start (connected_lows self.now.peers) }
    {
        let mut least = start;
        for peer in self.peers.iter() {
            if peer.connected {
                least = least.min(peer.low);
            }
        }
        least
    }

    /// The greatest horizon that a trim may have, where the primary has hardened up to its own LSN, and this is the least
    /// snapshot of its open transactions.
    pub fn limit(&self, own: u64, snapshot: Option<u64>) -> u64
        ensures { result ≡ limit_of own (snapshots_of snapshot) self.now.peers }
    {
        match snapshot {
            Some(snapshot) => self.least_low(own.min(snapshot)),
            None => self.least_low(own),
        }
    }
}
