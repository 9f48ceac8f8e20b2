//! Lines of the network, of members, and of failovers.
ghost use Rattle.std.specs.Prelude.{◌≡◌};
ghost use Rattle.ag_script.specs.Shapes.{read, cut_shape, mend_shape, join_shape, resume_shape, sync_shape, timeout_shape, planned_shape, auto_shape, force_shape, finish_shape};
ghost use Rattle.ag_script.specs.Named.{first_named, member_shapes};

use crate::words::Words;
use ag_model::config::Config;
use ag_model::event::Event;

/// The event of a line of a member, which is the last group.
#[tactic(auto, unfolding(crate::specs::Named::member_shapes))]
pub(crate) fn member_event(c: &Config, name: &[u8], words: &mut Words<'_>) -> Option<Event>
    ensures { result ≡ first_named (member_shapes c.now) name.now words.old }
{
    if name == b"cut".as_slice() {
        return cut(words, c);
    }
    if name == b"mend".as_slice() {
        return mend(words, c);
    }
    if name == b"join".as_slice() {
        return join(words, c);
    }
    if name == b"resume".as_slice() {
        return resume(words, c);
    }
    if name == b"sync".as_slice() {
        return sync(words, c);
    }
    if name == b"timeout".as_slice() {
        return timeout(words, c);
    }
    if name == b"planned".as_slice() {
        return planned(words, c);
    }
    if name == b"auto".as_slice() {
        return auto(words);
    }
    if name == b"force".as_slice() {
        return force(words, c);
    }
    if name == b"finish".as_slice() {
        return finish(words, c);
    }
    None
}

fn cut(words: &mut Words<'_>, c: &Config) -> Option<Event>
    ensures { result ≡ read (cut_shape c.now) words.old }
{
    let node = words.node(c)?;
    let suffix = words.suffix()?;
    Some(Event::Cut { node, suffix })
}

fn mend(words: &mut Words<'_>, c: &Config) -> Option<Event>
    ensures { result ≡ read (mend_shape c.now) words.old }
{
    let node = words.node(c)?;
    let suffix = words.suffix()?;
    Some(Event::Mend { node, suffix })
}

fn join(words: &mut Words<'_>, c: &Config) -> Option<Event>
    ensures { result ≡ read (join_shape c.now) words.old }
{
    let node = words.node(c)?;
    let suffix = words.suffix()?;
    Some(Event::Join { node, suffix })
}

fn resume(words: &mut Words<'_>, c: &Config) -> Option<Event>
    ensures { result ≡ read (resume_shape c.now) words.old }
{
    let node = words.node(c)?;
    let suffix = words.suffix()?;
    Some(Event::Resume { node, suffix })
}

fn sync(words: &mut Words<'_>, c: &Config) -> Option<Event>
    ensures { result ≡ read (sync_shape c.now) words.old }
{
    let node = words.node(c)?;
    let to = words.other(c, &node)?;
    let suffix = words.suffix()?;
    Some(Event::Sync { node, to, suffix })
}

fn timeout(words: &mut Words<'_>, c: &Config) -> Option<Event>
    ensures { result ≡ read (timeout_shape c.now) words.old }
{
    let node = words.node(c)?;
    let to = words.other(c, &node)?;
    let suffix = words.suffix()?;
    Some(Event::Timeout { node, to, suffix })
}

fn planned(words: &mut Words<'_>, c: &Config) -> Option<Event>
    ensures { result ≡ read (planned_shape c.now) words.old }
{
    let node = words.node(c)?;
    let suffix = words.suffix()?;
    Some(Event::Planned { node, suffix })
}

fn auto(words: &mut Words<'_>) -> Option<Event>
    ensures { result ≡ read auto_shape words.old }
{
    let suffix = words.suffix()?;
    Some(Event::Auto { suffix })
}

fn force(words: &mut Words<'_>, c: &Config) -> Option<Event>
    ensures { result ≡ read (force_shape c.now) words.old }
{
    let node = words.node(c)?;
    let suffix = words.suffix()?;
    Some(Event::Force { node, suffix })
}

fn finish(words: &mut Words<'_>, c: &Config) -> Option<Event>
    ensures { result ≡ read (finish_shape c.now) words.old }
{
    let node = words.node(c)?;
    let suffix = words.suffix()?;
    Some(Event::Finish { node, suffix })
}
