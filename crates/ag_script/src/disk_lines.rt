//! Lines of crashes, starts, and what befalls a disk.
ghost use Rattle.std.specs.Prelude.{◌≡◌, ◌≤◌};
ghost use Rattle.ag_script.specs.Shapes.{read, flush_shape, crash_shape, start_shape, spoil_shape, unread_shape, ask_shape};
ghost use Rattle.ag_script.specs.Named.{first_named, disk_shapes};

use crate::member_lines::member_event;
use crate::words::Words;
use ag_model::config::Config;
use ag_model::event::Event;

/// The event of a line of a disk, or else of the last group.
#[tactic(auto, unfolding(crate::specs::Named::disk_shapes))]
pub(crate) fn disk_event(c: &Config, name: &[u8], words: &mut Words<'_>) -> Option<Event>
    requires { c.now.pages ≤ 2048 }
    ensures { result ≡ first_named (disk_shapes c.now) name.now words.old }
{
    if name == b"flush".as_slice() {
        return flush(words, c);
    }
    if name == b"crash".as_slice() {
        return crash(words, c);
    }
    if name == b"start".as_slice() {
        return start(words, c);
    }
    if name == b"spoil".as_slice() {
        return spoil(words, c);
    }
    if name == b"unread".as_slice() {
        return unread(words, c);
    }
    if name == b"ask".as_slice() {
        return ask(words, c);
    }
    member_event(c, name, words)
}

fn flush(words: &mut Words<'_>, c: &Config) -> Option<Event>
    ensures { result ≡ read (flush_shape c.now) words.old }
{
    let node = words.node(c)?;
    let suffix = words.suffix()?;
    Some(Event::Flush { node, suffix })
}

fn crash(words: &mut Words<'_>, c: &Config) -> Option<Event>
    ensures { result ≡ read (crash_shape c.now) words.old }
{
    let node = words.node(c)?;
    let suffix = words.suffix()?;
    Some(Event::Crash { node, suffix })
}

fn start(words: &mut Words<'_>, c: &Config) -> Option<Event>
    ensures { result ≡ read (start_shape c.now) words.old }
{
    let node = words.node(c)?;
    let suffix = words.suffix()?;
    Some(Event::Start { node, suffix })
}

fn spoil(words: &mut Words<'_>, c: &Config) -> Option<Event>
    requires { c.now.pages ≤ 2048 }
    ensures { result ≡ read (spoil_shape c.now) words.old }
{
    let node = words.node(c)?;
    let page = words.page(c)?;
    let sector = words.sixteenth()?;
    let suffix = words.suffix()?;
    Some(Event::Spoil {
        node,
        page,
        sector,
        suffix,
    })
}

fn unread(words: &mut Words<'_>, c: &Config) -> Option<Event>
    requires { c.now.pages ≤ 2048 }
    ensures { result ≡ read (unread_shape c.now) words.old }
{
    let node = words.node(c)?;
    let page = words.page(c)?;
    let suffix = words.suffix()?;
    Some(Event::Unread { node, page, suffix })
}

fn ask(words: &mut Words<'_>, c: &Config) -> Option<Event>
    requires { c.now.pages ≤ 2048 }
    ensures { result ≡ read (ask_shape c.now) words.old }
{
    let node = words.node(c)?;
    let page = words.page(c)?;
    let to = words.other(c, &node)?;
    let suffix = words.suffix()?;
    Some(Event::Ask {
        node,
        page,
        to,
        suffix,
    })
}
