//! Lines that read rows, or look at a replica.
ghost use Rattle.std.specs.Prelude.{◌≡◌, ◌≤◌};
ghost use Rattle.ag_script.specs.Shapes.{read, read_shape, snap_shape, view_shape, close_shape, suspects_shape, page_shape, sectors_shape, status_shape};
ghost use Rattle.ag_script.specs.Named.{first_named, look_shapes};

use crate::disk_lines::disk_event;
use crate::words::Words;
use ag_model::config::Config;
use ag_model::event::Event;

/// The event of a line that reads or looks, or else of the later groups.
#[tactic(auto, unfolding(crate::specs::Named::look_shapes))]
pub(crate) fn look_event(c: &Config, name: &[u8], words: &mut Words<'_>) -> Option<Event>
    requires { c.now.pages ≤ 2048 }
    ensures { result ≡ first_named (look_shapes c.now) name.now words.old }
{
    if name == b"read".as_slice() {
        return read(words, c);
    }
    if name == b"snap".as_slice() {
        return snap(words, c);
    }
    if name == b"view".as_slice() {
        return view(words, c);
    }
    if name == b"close".as_slice() {
        return close(words, c);
    }
    if name == b"suspects".as_slice() {
        return suspects(words, c);
    }
    if name == b"page".as_slice() {
        return page(words, c);
    }
    if name == b"sectors".as_slice() {
        return sectors(words, c);
    }
    if name == b"status".as_slice() {
        return status(words, c);
    }
    disk_event(c, name, words)
}

fn read(words: &mut Words<'_>, c: &Config) -> Option<Event>
    ensures { result ≡ read (read_shape c.now) words.old }
{
    let node = words.node(c)?;
    let session = words.session()?;
    let key = words.key()?;
    let suffix = words.suffix()?;
    Some(Event::Read {
        node,
        session,
        key,
        suffix,
    })
}

fn snap(words: &mut Words<'_>, c: &Config) -> Option<Event>
    ensures { result ≡ read (snap_shape c.now) words.old }
{
    let node = words.node(c)?;
    let session = words.session()?;
    let suffix = words.suffix()?;
    Some(Event::Snap {
        node,
        session,
        suffix,
    })
}

fn view(words: &mut Words<'_>, c: &Config) -> Option<Event>
    ensures { result ≡ read (view_shape c.now) words.old }
{
    let node = words.node(c)?;
    let session = words.session()?;
    let key = words.key()?;
    let suffix = words.suffix()?;
    Some(Event::View {
        node,
        session,
        key,
        suffix,
    })
}

fn close(words: &mut Words<'_>, c: &Config) -> Option<Event>
    ensures { result ≡ read (close_shape c.now) words.old }
{
    let node = words.node(c)?;
    let session = words.session()?;
    let suffix = words.suffix()?;
    Some(Event::Close {
        node,
        session,
        suffix,
    })
}

fn suspects(words: &mut Words<'_>, c: &Config) -> Option<Event>
    ensures { result ≡ read (suspects_shape c.now) words.old }
{
    let node = words.node(c)?;
    let suffix = words.suffix()?;
    Some(Event::Suspects { node, suffix })
}

fn page(words: &mut Words<'_>, c: &Config) -> Option<Event>
    requires { c.now.pages ≤ 2048 }
    ensures { result ≡ read (page_shape c.now) words.old }
{
    let node = words.node(c)?;
    let page = words.page(c)?;
    let suffix = words.suffix()?;
    Some(Event::Page { node, page, suffix })
}

fn sectors(words: &mut Words<'_>, c: &Config) -> Option<Event>
    requires { c.now.pages ≤ 2048 }
    ensures { result ≡ read (sectors_shape c.now) words.old }
{
    let node = words.node(c)?;
    let page = words.page(c)?;
    let suffix = words.suffix()?;
    Some(Event::Sectors { node, page, suffix })
}

fn status(words: &mut Words<'_>, c: &Config) -> Option<Event>
    ensures { result ≡ read (status_shape c.now) words.old }
{
    let node = words.node(c)?;
    let suffix = words.suffix()?;
    Some(Event::Status { node, suffix })
}
