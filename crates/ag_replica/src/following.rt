//! What a secondary knows.
ghost use Rattle.std.specs.Prelude.{◌≡◌};
ghost use Rattle.ag_rules.specs.Replica.{no_following};

use ag_model::config::Ticket;
use ag_model::list::ListOf;
use std::alloc::Global;
use std::marker::Model;

/// The snapshot of a session, at an LSN.
#[derive(Clone, Copy, Debug)]
pub struct Snapshot {
    pub session: u8,
    pub lsn: u64,
}

impl Model for Snapshot {
    ghost use Rattle.ag_rules.specs.Replica.{Snapshot as RulesSnapshot};
    ghost use Rattle.std.specs.Prelude.{refl};

    ghost Value = { RulesSnapshot };

    ghost view = { λ s. record { session = s.session; lsn = s.lsn } };

    ghost inverse = { λ s. record { session = s.session; lsn = s.lsn } };

    ghost inverse_ok = { λ a h. refl };
}

/// What a secondary knows: the snapshots of its sessions, the ticket of the join that it waits for, how often it has joined
/// since its start, the replica that it follows and whether that has answered, and the greatest LSN of the pages that came.
#[derive(Drop)]
pub struct Following {
    snapshots: ListOf<Snapshot>,
    ticket: Option<Ticket>,
    joins: u32,
    follows: u8,
    resumed: bool,
    given: u64,
}

impl Model for Following {
    ghost use Rattle.ag_rules.specs.Replica.{Following as RulesFollowing};

    ghost Value = { RulesFollowing };

    ghost view = { λ f. record { snapshots = f.snapshots; ticket = f.ticket; joins = f.joins; follows = f.follows; resumed = f.resumed; given = f.given } };
}

impl Following {
    /// What a replica knows that has joined nobody.
    pub fn none(alloc: Global) -> Following
        ensures { result ≡ no_following }
    {
        Following {
            snapshots: ListOf::new(alloc),
            ticket: None,
            joins: 0,
            follows: 0,
            resumed: false,
            given: 0,
        }
    }

    /// The snapshots of its sessions.
    pub fn snapshots(&self) -> &ListOf<Snapshot>
        ensures { result.now ≡ self.now.snapshots }
    {
        &self.snapshots
    }

    /// The replica that it follows.
    pub fn follows(&self) -> u8
        ensures { result ≡ self.now.follows }
    {
        self.follows
    }
}
