//! Lines that bring the log on: to the disk, over the links, and into the pages.
ghost use Rattle.std.specs.Prelude.{◌≡◌, ◌≤◌};
ghost use Rattle.ag_script.specs.Shapes.{read, harden_shape, ack_shape, send_shape, deliver_shape, repeat_shape, lose_shape, apply_shape, raise_shape, redo_shape, report_shape};
ghost use Rattle.ag_script.specs.Named.{first_named, log_shapes};

use crate::look_lines::look_event;
use crate::words::Words;
use ag_model::config::Config;
use ag_model::event::Event;

/// The event of a line that brings the log on, or else of the later groups.
#[tactic(auto, unfolding(crate::specs::Named::log_shapes))]
pub(crate) fn log_event(c: &Config, name: &[u8], words: &mut Words<'_>) -> Option<Event>
    requires { c.now.pages ≤ 2048 }
    ensures { result ≡ first_named (log_shapes c.now) name.now words.old }
{
    if name == b"harden".as_slice() {
        return harden(words, c);
    }
    if name == b"ack".as_slice() {
        return ack(words, c);
    }
    if name == b"send".as_slice() {
        return send(words, c);
    }
    if name == b"deliver".as_slice() {
        return deliver(words, c);
    }
    if name == b"repeat".as_slice() {
        return repeat(words, c);
    }
    if name == b"lose".as_slice() {
        return lose(words, c);
    }
    if name == b"apply".as_slice() {
        return apply(words, c);
    }
    if name == b"raise".as_slice() {
        return raise(words, c);
    }
    if name == b"redo".as_slice() {
        return redo(words, c);
    }
    if name == b"report".as_slice() {
        return report(words, c);
    }
    look_event(c, name, words)
}

fn harden(words: &mut Words<'_>, c: &Config) -> Option<Event>
    ensures { result ≡ read (harden_shape c.now) words.old }
{
    let node = words.node(c)?;
    let suffix = words.suffix()?;
    Some(Event::Harden { node, suffix })
}

fn ack(words: &mut Words<'_>, c: &Config) -> Option<Event>
    ensures { result ≡ read (ack_shape c.now) words.old }
{
    let node = words.node(c)?;
    let lsn = words.long()?;
    let suffix = words.suffix()?;
    Some(Event::Ack { node, lsn, suffix })
}

fn send(words: &mut Words<'_>, c: &Config) -> Option<Event>
    ensures { result ≡ read (send_shape c.now) words.old }
{
    let node = words.node(c)?;
    let to = words.other(c, &node)?;
    let suffix = words.suffix()?;
    Some(Event::Send { node, to, suffix })
}

fn deliver(words: &mut Words<'_>, c: &Config) -> Option<Event>
    ensures { result ≡ read (deliver_shape c.now) words.old }
{
    let node = words.node(c)?;
    let to = words.other(c, &node)?;
    let number = words.message()?;
    let suffix = words.suffix()?;
    Some(Event::Deliver {
        node,
        to,
        number,
        suffix,
    })
}

fn repeat(words: &mut Words<'_>, c: &Config) -> Option<Event>
    ensures { result ≡ read (repeat_shape c.now) words.old }
{
    let node = words.node(c)?;
    let to = words.other(c, &node)?;
    let number = words.message()?;
    let suffix = words.suffix()?;
    Some(Event::Repeat {
        node,
        to,
        number,
        suffix,
    })
}

fn lose(words: &mut Words<'_>, c: &Config) -> Option<Event>
    ensures { result ≡ read (lose_shape c.now) words.old }
{
    let node = words.node(c)?;
    let to = words.other(c, &node)?;
    let number = words.message()?;
    let suffix = words.suffix()?;
    Some(Event::Lose {
        node,
        to,
        number,
        suffix,
    })
}

fn apply(words: &mut Words<'_>, c: &Config) -> Option<Event>
    ensures { result ≡ read (apply_shape c.now) words.old }
{
    let node = words.node(c)?;
    let stripe = words.sixteenth()?;
    let suffix = words.suffix()?;
    Some(Event::Apply {
        node,
        stripe,
        suffix,
    })
}

fn raise(words: &mut Words<'_>, c: &Config) -> Option<Event>
    ensures { result ≡ read (raise_shape c.now) words.old }
{
    let node = words.node(c)?;
    let stripe = words.sixteenth()?;
    let suffix = words.suffix()?;
    Some(Event::Raise {
        node,
        stripe,
        suffix,
    })
}

fn redo(words: &mut Words<'_>, c: &Config) -> Option<Event>
    ensures { result ≡ read (redo_shape c.now) words.old }
{
    let node = words.node(c)?;
    let suffix = words.suffix()?;
    Some(Event::Redo { node, suffix })
}

fn report(words: &mut Words<'_>, c: &Config) -> Option<Event>
    ensures { result ≡ read (report_shape c.now) words.old }
{
    let node = words.node(c)?;
    let suffix = words.suffix()?;
    Some(Event::Report { node, suffix })
}
