//! What one replica may be told to do, without the word that names the replica and without a suffix. Acts are sorted by who
//! does them.
ghost use Rattle.std.specs.Prelude.{◌≡◌};

use ag_model::event::{PairList, Who};
use ag_model::value::Value;
use std::marker::Model;

/// The pairs of a `set`, which stay in its event. A contract sees them as a list.
#[derive(Drop)]
pub struct Pairs<'a> {
    list: &'a PairList,
}

impl<'a> Model for Pairs<'a> {
    ghost use Rattle.std.specs.Prelude.{List};
    ghost use Rattle.ag_model.specs.declared.event.Pair.{Pair};

    ghost Value = { List Pair };

    ghost view = { λ p. p.list.now };
}

impl<'a> Pairs<'a> {
    /// These pairs.
    pub fn new(list: &'a PairList) -> Pairs<'a>
        ensures { result ≡ list.now }
    {
        Pairs { list }
    }

    /// The pairs as the event has them.
    pub fn list(&self) -> &'a PairList
        ensures { result.now ≡ self.now }
    {
        self.list
    }
}

/// Of a transaction at a primary, or a whole transaction at once.
#[derive(Drop)]
pub enum TransactAct<'a> {
    Begin,
    Get { txn: u64, key: u32 },
    Put { txn: u64, key: u32, value: Value },
    Del { txn: u64, key: u32 },
    Commit { txn: u64 },
    Rollback { txn: u64 },
    Set { pairs: Pairs<'a> },
}

/// Of a primary, with its log and its secondaries.
#[derive(Clone, Copy, Debug)]
pub enum LeadAct {
    Trim { page: u16, horizon: u64 },
    Harden,
    Ack { lsn: u64 },
    Send { to: Who },
}

/// Of a secondary that redoes its log.
#[derive(Clone, Copy, Debug)]
pub enum FollowAct {
    Apply { stripe: u8 },
    Raise { stripe: u8 },
    Redo,
    Report,
}

/// Of a session at a secondary.
#[derive(Clone, Copy, Debug)]
pub enum SessionAct {
    Read { session: u8, key: u32 },
    Snap { session: u8 },
    View { session: u8, key: u32 },
    Close { session: u8 },
}

/// A look at a replica, which leaves it as it is.
#[derive(Clone, Copy, Debug)]
pub enum LookAct {
    Suspects,
    Page { page: u16 },
    Sectors { page: u16 },
    Status,
}

/// Of a replica with its disk, and what happens to that disk.
#[derive(Clone, Copy, Debug)]
pub enum DiskAct {
    Flush,
    Crash,
    Start,
    Spoil { page: u16, sector: u8 },
    Unread { page: u16 },
}

/// Of a replica among the others.
#[derive(Clone, Copy, Debug)]
pub enum MemberAct {
    Cut,
    Mend,
    Join,
    Finish,
    Ask { page: u16, to: Who },
}

/// What one replica is told to do.
#[derive(Drop)]
pub enum Act<'a> {
    Transact(TransactAct<'a>),
    Lead(LeadAct),
    Follow(FollowAct),
    Session(SessionAct),
    Look(LookAct),
    Disk(DiskAct),
    Member(MemberAct),
}
