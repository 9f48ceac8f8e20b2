//! What an event tells one replica to do.
ghost use Rattle.std.specs.Prelude.{◌≡◌};
ghost use Rattle.ag_rules.specs.Next.{suffix_of};
ghost use Rattle.ag_acts.specs.Acts.{told_of, act_of, node_of};

use crate::act::Act;
use crate::families::{disk, follow, lead, look, member, session, transact};
use ag_model::event::{Event, Suffix, Who};

/// The replica of an event at one replica, what it does, and what cuts it short.
#[derive(Drop)]
pub struct Told<'a> {
    pub node: Who,
    pub act: Act<'a>,
    pub suffix: Suffix,
}

/// The word that names the replica, if the event happens at one.
fn node_of(event: &Event) -> Option<Who>
    ensures { result ≡ node_of event.now }
{
    match event {
        Event::Begin { node, .. }
        | Event::Get { node, .. }
        | Event::Put { node, .. }
        | Event::Del { node, .. }
        | Event::Commit { node, .. }
        | Event::Rollback { node, .. }
        | Event::Set { node, .. }
        | Event::Trim { node, .. }
        | Event::Harden { node, .. }
        | Event::Ack { node, .. }
        | Event::Send { node, .. }
        | Event::Apply { node, .. }
        | Event::Raise { node, .. }
        | Event::Redo { node, .. }
        | Event::Read { node, .. }
        | Event::Snap { node, .. }
        | Event::View { node, .. }
        | Event::Close { node, .. }
        | Event::Report { node, .. }
        | Event::Flush { node, .. }
        | Event::Crash { node, .. }
        | Event::Start { node, .. }
        | Event::Spoil { node, .. }
        | Event::Unread { node, .. }
        | Event::Ask { node, .. }
        | Event::Suspects { node, .. }
        | Event::Page { node, .. }
        | Event::Sectors { node, .. }
        | Event::Status { node, .. }
        | Event::Cut { node, .. }
        | Event::Mend { node, .. }
        | Event::Join { node, .. }
        | Event::Finish { node, .. } => Some(*node),
        _ => None,
    }
}

/// The suffix of an event.
fn suffix_of(event: &Event) -> Suffix
    ensures { result ≡ suffix_of event.now }
{
    match event {
        Event::Begin { suffix, .. }
        | Event::Get { suffix, .. }
        | Event::Put { suffix, .. }
        | Event::Del { suffix, .. }
        | Event::Commit { suffix, .. }
        | Event::Rollback { suffix, .. }
        | Event::Set { suffix, .. }
        | Event::Trim { suffix, .. }
        | Event::Harden { suffix, .. }
        | Event::Ack { suffix, .. }
        | Event::Send { suffix, .. }
        | Event::Deliver { suffix, .. }
        | Event::Repeat { suffix, .. }
        | Event::Lose { suffix, .. }
        | Event::Apply { suffix, .. }
        | Event::Raise { suffix, .. }
        | Event::Redo { suffix, .. }
        | Event::Read { suffix, .. }
        | Event::Snap { suffix, .. }
        | Event::View { suffix, .. }
        | Event::Close { suffix, .. }
        | Event::Report { suffix, .. }
        | Event::Flush { suffix, .. }
        | Event::Crash { suffix, .. }
        | Event::Start { suffix, .. }
        | Event::Spoil { suffix, .. }
        | Event::Unread { suffix, .. }
        | Event::Ask { suffix, .. }
        | Event::Suspects { suffix, .. }
        | Event::Page { suffix, .. }
        | Event::Sectors { suffix, .. }
        | Event::Status { suffix, .. }
        | Event::Cut { suffix, .. }
        | Event::Mend { suffix, .. }
        | Event::Join { suffix, .. }
        | Event::Resume { suffix, .. }
        | Event::Sync { suffix, .. }
        | Event::Timeout { suffix, .. }
        | Event::Planned { suffix, .. }
        | Event::Auto { suffix }
        | Event::Force { suffix, .. }
        | Event::Finish { suffix, .. } => *suffix,
    }
}

/// What is done, if the event happens at one replica.
fn act_of(event: &Event) -> Option<Act<'_>>
    ensures { result ≡ act_of event.now }
{
    if let Some(act) = transact(event) {
        return Some(Act::Transact(act));
    }
    if let Some(act) = lead(event) {
        return Some(Act::Lead(act));
    }
    if let Some(act) = follow(event) {
        return Some(Act::Follow(act));
    }
    if let Some(act) = session(event) {
        return Some(Act::Session(act));
    }
    if let Some(act) = look(event) {
        return Some(Act::Look(act));
    }
    if let Some(act) = disk(event) {
        return Some(Act::Disk(act));
    }
    if let Some(act) = member(event) {
        return Some(Act::Member(act));
    }
    None
}

/// What an event tells one replica to do, if it is an event at one replica.
pub fn told_of(event: &Event) -> Option<Told<'_>>
    ensures { result ≡ told_of event.now }
{
    let node = node_of(event)?;
    let act = act_of(event)?;
    let suffix = suffix_of(event);
    Some(Told { node, act, suffix })
}
