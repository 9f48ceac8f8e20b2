//! The acts of each family.
ghost use Rattle.std.specs.Prelude.{◌≡◌};
ghost use Rattle.ag_acts.specs.Acts.{act_of};
ghost use Rattle.ag_acts.specs.Families.{transact_in, lead_in, follow_in, session_in, look_in, disk_in, member_in};

use crate::act::{DiskAct, FollowAct, LeadAct, LookAct, MemberAct, Pairs, SessionAct, TransactAct};
use ag_model::event::Event;

/// The act, if it is one of a transaction.
pub(crate) fn transact(event: &Event) -> Option<TransactAct<'_>>
    ensures { result ≡ transact_in (act_of event.now) }
{
    match event {
        Event::Begin { .. } => Some(TransactAct::Begin),
        Event::Get { txn, key, .. } => Some(TransactAct::Get {
            txn: *txn,
            key: *key,
        }),
        Event::Put {
            txn,
            key,
            value,
            ..
        } => Some(TransactAct::Put {
            txn: *txn,
            key: *key,
            value: *value,
        }),
        Event::Del { txn, key, .. } => Some(TransactAct::Del {
            txn: *txn,
            key: *key,
        }),
        Event::Commit { txn, .. } => Some(TransactAct::Commit { txn: *txn }),
        Event::Rollback { txn, .. } => Some(TransactAct::Rollback { txn: *txn }),
        Event::Set { pairs, .. } => Some(TransactAct::Set {
            pairs: Pairs::new(pairs),
        }),
        _ => None,
    }
}

/// The act, if it is one of a primary with its log and its secondaries.
pub(crate) fn lead(event: &Event) -> Option<LeadAct>
    ensures { result ≡ lead_in (act_of event.now) }
{
    match event {
        Event::Trim { page, horizon, .. } => Some(LeadAct::Trim {
            page: *page,
            horizon: *horizon,
        }),
        Event::Harden { .. } => Some(LeadAct::Harden),
        Event::Ack { lsn, .. } => Some(LeadAct::Ack { lsn: *lsn }),
        Event::Send { to, .. } => Some(LeadAct::Send { to: *to }),
        _ => None,
    }
}

/// The act, if it is one of a secondary that redoes its log.
pub(crate) fn follow(event: &Event) -> Option<FollowAct>
    ensures { result ≡ follow_in (act_of event.now) }
{
    match event {
        Event::Apply { stripe, .. } => Some(FollowAct::Apply { stripe: *stripe }),
        Event::Raise { stripe, .. } => Some(FollowAct::Raise { stripe: *stripe }),
        Event::Redo { .. } => Some(FollowAct::Redo),
        Event::Report { .. } => Some(FollowAct::Report),
        _ => None,
    }
}

/// The act, if it is one of a session.
pub(crate) fn session(event: &Event) -> Option<SessionAct>
    ensures { result ≡ session_in (act_of event.now) }
{
    match event {
        Event::Read { session, key, .. } => Some(SessionAct::Read {
            session: *session,
            key: *key,
        }),
        Event::Snap { session, .. } => Some(SessionAct::Snap { session: *session }),
        Event::View { session, key, .. } => Some(SessionAct::View {
            session: *session,
            key: *key,
        }),
        Event::Close { session, .. } => Some(SessionAct::Close { session: *session }),
        _ => None,
    }
}

/// The act, if it is a look.
pub(crate) fn look(event: &Event) -> Option<LookAct>
    ensures { result ≡ look_in (act_of event.now) }
{
    match event {
        Event::Suspects { .. } => Some(LookAct::Suspects),
        Event::Page { page, .. } => Some(LookAct::Page { page: *page }),
        Event::Sectors { page, .. } => Some(LookAct::Sectors { page: *page }),
        Event::Status { .. } => Some(LookAct::Status),
        _ => None,
    }
}

/// The act, if it is one of a replica with its disk.
pub(crate) fn disk(event: &Event) -> Option<DiskAct>
    ensures { result ≡ disk_in (act_of event.now) }
{
    match event {
        Event::Flush { .. } => Some(DiskAct::Flush),
        Event::Crash { .. } => Some(DiskAct::Crash),
        Event::Start { .. } => Some(DiskAct::Start),
        Event::Spoil { page, sector, .. } => Some(DiskAct::Spoil {
            page: *page,
            sector: *sector,
        }),
        Event::Unread { page, .. } => Some(DiskAct::Unread { page: *page }),
        _ => None,
    }
}

/// The act, if it is one of a replica among the others.
pub(crate) fn member(event: &Event) -> Option<MemberAct>
    ensures { result ≡ member_in (act_of event.now) }
{
    match event {
        Event::Cut { .. } => Some(MemberAct::Cut),
        Event::Mend { .. } => Some(MemberAct::Mend),
        Event::Join { .. } => Some(MemberAct::Join),
        Event::Finish { .. } => Some(MemberAct::Finish),
        Event::Ask { page, to, .. } => Some(MemberAct::Ask {
            page: *page,
            to: *to,
        }),
        _ => None,
    }
}
