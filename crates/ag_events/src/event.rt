//! An event as a line.
ghost use Rattle.std.specs.Prelude.{◌≡◌, ◌++◌, OnOk};
ghost use Rattle.ag_events.specs.Texts.{event_text};

use crate::shapes::{
    put_asked, put_change, put_message, put_node, put_nodes, put_one, put_plain, put_set, put_two,
};
use ag_model::event::Event;
use ag_model::value::NoMemory;

/// Adds the line of an event at the end of `out`, without the end of the line. The line is this project's own.
///
/// An error leaves open what `out` has, which may be a part of the line.
pub fn print_event(e: &Event, out: &mut Vec<u8>) -> Result<(), NoMemory>
    ensures { OnOk result (out.new.items ≡ out.old.items ++ event_text e.now) }
{
    match e {
        Event::Begin { node, suffix } => put_node(b"begin", node, suffix, out),
        Event::Get {
            node,
            txn,
            key,
            suffix,
        } => put_two(b"get", node, *txn, u64::from(*key), suffix, out),
        Event::Put {
            node,
            txn,
            key,
            value,
            suffix,
        } => put_change(b"put", node, *txn, u64::from(*key), value, suffix, out),
        Event::Del {
            node,
            txn,
            key,
            suffix,
        } => put_two(b"del", node, *txn, u64::from(*key), suffix, out),
        Event::Commit { node, txn, suffix } => put_one(b"commit", node, *txn, suffix, out),
        Event::Rollback { node, txn, suffix } => put_one(b"rollback", node, *txn, suffix, out),
        Event::Set {
            node,
            pairs,
            suffix,
        } => put_set(b"set", node, pairs.as_slice(), suffix, out),
        Event::Trim {
            node,
            page,
            horizon,
            suffix,
        } => put_two(b"trim", node, u64::from(*page), *horizon, suffix, out),
        Event::Harden { node, suffix } => put_node(b"harden", node, suffix, out),
        Event::Ack { node, lsn, suffix } => put_one(b"ack", node, *lsn, suffix, out),
        Event::Send { node, to, suffix } => put_nodes(b"send", node, to, suffix, out),
        Event::Deliver {
            node,
            to,
            number,
            suffix,
        } => put_message(b"deliver", node, to, u64::from(*number), suffix, out),
        Event::Repeat {
            node,
            to,
            number,
            suffix,
        } => put_message(b"repeat", node, to, u64::from(*number), suffix, out),
        Event::Lose {
            node,
            to,
            number,
            suffix,
        } => put_message(b"lose", node, to, u64::from(*number), suffix, out),
        Event::Apply {
            node,
            stripe,
            suffix,
        } => put_one(b"apply", node, u64::from(*stripe), suffix, out),
        Event::Raise {
            node,
            stripe,
            suffix,
        } => put_one(b"raise", node, u64::from(*stripe), suffix, out),
        Event::Redo { node, suffix } => put_node(b"redo", node, suffix, out),
        Event::Read {
            node,
            session,
            key,
            suffix,
        } => put_two(
            b"read",
            node,
            u64::from(*session),
            u64::from(*key),
            suffix,
            out,
        ),
        Event::Snap {
            node,
            session,
            suffix,
        } => put_one(b"snap", node, u64::from(*session), suffix, out),
        Event::View {
            node,
            session,
            key,
            suffix,
        } => put_two(
            b"view",
            node,
            u64::from(*session),
            u64::from(*key),
            suffix,
            out,
        ),
        Event::Close {
            node,
            session,
            suffix,
        } => put_one(b"close", node, u64::from(*session), suffix, out),
        Event::Report { node, suffix } => put_node(b"report", node, suffix, out),
        Event::Flush { node, suffix } => put_node(b"flush", node, suffix, out),
        Event::Crash { node, suffix } => put_node(b"crash", node, suffix, out),
        Event::Start { node, suffix } => put_node(b"start", node, suffix, out),
        Event::Spoil {
            node,
            page,
            sector,
            suffix,
        } => put_two(
            b"spoil",
            node,
            u64::from(*page),
            u64::from(*sector),
            suffix,
            out,
        ),
        Event::Unread { node, page, suffix } => put_one(
            b"unread",
            node,
            u64::from(*page),
            suffix,
            out,
        ),
        Event::Ask {
            node,
            page,
            to,
            suffix,
        } => put_asked(b"ask", node, u64::from(*page), to, suffix, out),
        Event::Suspects { node, suffix } => put_node(b"suspects", node, suffix, out),
        Event::Page { node, page, suffix } => put_one(b"page", node, u64::from(*page), suffix, out),
        Event::Sectors { node, page, suffix } => put_one(
            b"sectors",
            node,
            u64::from(*page),
            suffix,
            out,
        ),
        Event::Status { node, suffix } => put_node(b"status", node, suffix, out),
        Event::Cut { node, suffix } => put_node(b"cut", node, suffix, out),
        Event::Mend { node, suffix } => put_node(b"mend", node, suffix, out),
        Event::Join { node, suffix } => put_node(b"join", node, suffix, out),
        Event::Resume { node, suffix } => put_node(b"resume", node, suffix, out),
        Event::Sync { node, to, suffix } => put_nodes(b"sync", node, to, suffix, out),
        Event::Timeout { node, to, suffix } => put_nodes(b"timeout", node, to, suffix, out),
        Event::Planned { node, suffix } => put_node(b"planned", node, suffix, out),
        Event::Auto { suffix } => put_plain(b"auto", suffix, out),
        Event::Force { node, suffix } => put_node(b"force", node, suffix, out),
        Event::Finish { node, suffix } => put_node(b"finish", node, suffix, out),
    }
}
