//! Events as data.
use crate::words::Words;
use ag_model::event::{Event, Who};
use std::alloc::{AllocError, Global};

/// The event of a transaction of this name.
fn transaction(name: &str, node: Who, words: &mut Words<'_>) -> Option<Event> {
    match name {
        "begin" => Some(Event::Begin {
            node,
            suffix: words.suffix(),
        }),
        "get" => Some(Event::Get {
            node,
            txn: words.long(),
            key: words.key(),
            suffix: words.suffix(),
        }),
        "put" => Some(Event::Put {
            node,
            txn: words.long(),
            key: words.key(),
            value: words.value(),
            suffix: words.suffix(),
        }),
        "del" => Some(Event::Del {
            node,
            txn: words.long(),
            key: words.key(),
            suffix: words.suffix(),
        }),
        "commit" => Some(Event::Commit {
            node,
            txn: words.long(),
            suffix: words.suffix(),
        }),
        "rollback" => Some(Event::Rollback {
            node,
            txn: words.long(),
            suffix: words.suffix(),
        }),
        _ => None,
    }
}

/// The event of a primary of this name.
fn leading(name: &str, node: Who, words: &mut Words<'_>) -> Option<Event> {
    match name {
        "trim" => Some(Event::Trim {
            node,
            page: words.page(),
            horizon: words.long(),
            suffix: words.suffix(),
        }),
        "harden" => Some(Event::Harden {
            node,
            suffix: words.suffix(),
        }),
        "ack" => Some(Event::Ack {
            node,
            lsn: words.long(),
            suffix: words.suffix(),
        }),
        "send" => Some(Event::Send {
            node,
            to: words.who(),
            suffix: words.suffix(),
        }),
        _ => None,
    }
}

/// The event of a secondary of this name.
fn following(name: &str, node: Who, words: &mut Words<'_>) -> Option<Event> {
    match name {
        "apply" => Some(Event::Apply {
            node,
            stripe: words.small(),
            suffix: words.suffix(),
        }),
        "raise" => Some(Event::Raise {
            node,
            stripe: words.small(),
            suffix: words.suffix(),
        }),
        "redo" => Some(Event::Redo {
            node,
            suffix: words.suffix(),
        }),
        "report" => Some(Event::Report {
            node,
            suffix: words.suffix(),
        }),
        _ => None,
    }
}

/// The event of a session of this name.
fn session(name: &str, node: Who, words: &mut Words<'_>) -> Option<Event> {
    match name {
        "read" => Some(Event::Read {
            node,
            session: words.small(),
            key: words.key(),
            suffix: words.suffix(),
        }),
        "snap" => Some(Event::Snap {
            node,
            session: words.small(),
            suffix: words.suffix(),
        }),
        "view" => Some(Event::View {
            node,
            session: words.small(),
            key: words.key(),
            suffix: words.suffix(),
        }),
        "close" => Some(Event::Close {
            node,
            session: words.small(),
            suffix: words.suffix(),
        }),
        _ => None,
    }
}

/// The look of this name.
fn look(name: &str, node: Who, words: &mut Words<'_>) -> Option<Event> {
    match name {
        "suspects" => Some(Event::Suspects {
            node,
            suffix: words.suffix(),
        }),
        "page" => Some(Event::Page {
            node,
            page: words.page(),
            suffix: words.suffix(),
        }),
        "sectors" => Some(Event::Sectors {
            node,
            page: words.page(),
            suffix: words.suffix(),
        }),
        "status" => Some(Event::Status {
            node,
            suffix: words.suffix(),
        }),
        _ => None,
    }
}

/// The event of a disk of this name.
fn disk(name: &str, node: Who, words: &mut Words<'_>) -> Option<Event> {
    match name {
        "flush" => Some(Event::Flush {
            node,
            suffix: words.suffix(),
        }),
        "crash" => Some(Event::Crash {
            node,
            suffix: words.suffix(),
        }),
        "start" => Some(Event::Start {
            node,
            suffix: words.suffix(),
        }),
        "spoil" => Some(Event::Spoil {
            node,
            page: words.page(),
            sector: words.small(),
            suffix: words.suffix(),
        }),
        "unread" => Some(Event::Unread {
            node,
            page: words.page(),
            suffix: words.suffix(),
        }),
        _ => None,
    }
}

/// The event of a member of the group of this name.
fn member(name: &str, node: Who, words: &mut Words<'_>) -> Option<Event> {
    match name {
        "cut" => Some(Event::Cut {
            node,
            suffix: words.suffix(),
        }),
        "mend" => Some(Event::Mend {
            node,
            suffix: words.suffix(),
        }),
        "join" => Some(Event::Join {
            node,
            suffix: words.suffix(),
        }),
        "finish" => Some(Event::Finish {
            node,
            suffix: words.suffix(),
        }),
        "ask" => Some(Event::Ask {
            node,
            page: words.page(),
            to: words.who(),
            suffix: words.suffix(),
        }),
        _ => None,
    }
}

/// The event of a message of this name.
fn message(name: &str, node: Who, words: &mut Words<'_>) -> Option<Event> {
    match name {
        "deliver" => Some(Event::Deliver {
            node,
            to: words.who(),
            number: words.page(),
            suffix: words.suffix(),
        }),
        "repeat" => Some(Event::Repeat {
            node,
            to: words.who(),
            number: words.page(),
            suffix: words.suffix(),
        }),
        "lose" => Some(Event::Lose {
            node,
            to: words.who(),
            number: words.page(),
            suffix: words.suffix(),
        }),
        _ => None,
    }
}

/// The event of the whole group of this name, with the replica that it names.
fn group(name: &str, node: Who, words: &mut Words<'_>) -> Option<Event> {
    match name {
        "resume" => Some(Event::Resume {
            node,
            suffix: words.suffix(),
        }),
        "sync" => Some(Event::Sync {
            node,
            to: words.who(),
            suffix: words.suffix(),
        }),
        "timeout" => Some(Event::Timeout {
            node,
            to: words.who(),
            suffix: words.suffix(),
        }),
        "planned" => Some(Event::Planned {
            node,
            suffix: words.suffix(),
        }),
        "force" => Some(Event::Force {
            node,
            suffix: words.suffix(),
        }),
        _ => None,
    }
}

/// The event of this name at one replica, but for a `set`.
fn at_one(name: &str, node: Who, words: &mut Words<'_>) -> Option<Event> {
    if let Some(event) = transaction(name, node, words) {
        return Some(event);
    }
    if let Some(event) = leading(name, node, words) {
        return Some(event);
    }
    if let Some(event) = following(name, node, words) {
        return Some(event);
    }
    if let Some(event) = session(name, node, words) {
        return Some(event);
    }
    if let Some(event) = look(name, node, words) {
        return Some(event);
    }
    if let Some(event) = disk(name, node, words) {
        return Some(event);
    }
    member(name, node, words)
}

/// The event of a line, if it is one.
pub fn event_of(alloc: Global, line: &str) -> Result<Option<Event>, AllocError> {
    let mut words = Words::new(line);
    let name = words.word();
    if name == "auto" {
        return Ok(Some(Event::Auto {
            suffix: words.suffix(),
        }));
    }
    let node = words.who();
    if name == "set" {
        let pairs = words.pairs(alloc)?;
        let suffix = words.suffix();
        return Ok(Some(Event::Set {
            node,
            pairs,
            suffix,
        }));
    }
    if let Some(event) = at_one(name, node, &mut words) {
        return Ok(Some(event));
    }
    if let Some(event) = message(name, node, &mut words) {
        return Ok(Some(event));
    }
    Ok(group(name, node, &mut words))
}
