//! What a primary knows.
ghost use Rattle.std.specs.Prelude.{◌≡◌};
ghost use Rattle.ag_rules.specs.Replica.{no_leading};

use ag_model::list::ListOf;
use ag_model::record::RecordList;
use std::alloc::Global;
use std::marker::Model;

/// An open transaction, with the LSN of its snapshot.
#[derive(Clone, Copy, Debug)]
pub struct OpenTxn {
    pub txn: u64,
    pub snapshot: u64,
}

impl Model for OpenTxn {
    ghost use Rattle.ag_rules.specs.Replica.{OpenTxn as RulesOpenTxn};
    ghost use Rattle.std.specs.Prelude.{refl};

    ghost Value = { RulesOpenTxn };

    ghost view = { λ t. record { txn = t.txn; snapshot = t.snapshot } };

    ghost inverse = { λ t. record { txn = t.txn; snapshot = t.snapshot } };

    ghost inverse_ok = { λ a h. refl };
}

/// What a primary knows of another replica: whether it is connected, the LSN that it is sent next, the LSN up to which it has
/// hardened, and the least LSN that it may still read.
#[derive(Clone, Copy, Debug)]
pub struct Peer {
    pub connected: bool,
    pub next: u64,
    pub hardened: u64,
    pub low: u64,
}

impl Model for Peer {
    ghost use Rattle.ag_rules.specs.Replica.{Peer as RulesPeer};
    ghost use Rattle.std.specs.Prelude.{refl};

    ghost Value = { RulesPeer };

    ghost view = { λ p. record { connected = p.connected; next = p.next; hardened = p.hardened; low = p.low } };

    ghost inverse = { λ p. record { connected = p.connected; next = p.next; hardened = p.hardened; low = p.low } };

    ghost inverse_ok = { λ a h. refl };
}

/// What a primary knows: the records that aren't hardened, the open transactions, the last transaction number, its copy of the
/// store's set, and what it knows of each replica.
#[derive(Drop)]
pub struct Leading {
    buffer: RecordList,
    open_txns: ListOf<OpenTxn>,
    last_txn: u64,
    synced: u16,
    peers: ListOf<Peer>,
}

impl Model for Leading {
    ghost use Rattle.ag_rules.specs.Replica.{Leading as RulesLeading};

    ghost Value = { RulesLeading };

    ghost view = { λ l. record { buffer = l.buffer; open_txns = l.open_txns; last_txn = l.last_txn; synced = l.synced; peers = l.peers } };
}

impl Leading {
    /// What a replica knows that doesn't lead.
    pub fn none(alloc: Global) -> Leading
        ensures { result ≡ no_leading }
    {
        Leading {
            buffer: ListOf::new(alloc),
            open_txns: ListOf::new(alloc),
            last_txn: 0,
            synced: 0,
            peers: ListOf::new(alloc),
        }
    }

    /// The records that aren't hardened.
    pub fn buffer(&self) -> &RecordList
        ensures { result.now ≡ self.now.buffer }
    {
        &self.buffer
    }
}
