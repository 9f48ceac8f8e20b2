//! Which events are built.
ghost use Rattle.std.specs.Prelude.{◌≡◌, ◌↔◌, IsTrue};
ghost use Rattle.ag_built.specs.Built.{IsBuilt, IsLetter};

use ag_model::event::{Event, Suffix, Who};

/// Whether a word is the letter of a replica.
fn is_letter(who: &Who) -> bool
    ensures { IsTrue result ↔ IsLetter who.now }
{
    match who {
        Who::Letter(_) => true,
        Who::Primary => false,
    }
}

/// Whether an event has no suffix.
fn is_whole(suffix: &Suffix) -> bool
    ensures { IsTrue result ↔ (suffix.now ≡ Suffix.Whole) }
{
    matches!(suffix, Suffix::Whole)
}

/// Whether this event is built.
pub(crate) fn is_built(event: &Event) -> bool
    ensures { IsTrue result ↔ IsBuilt event.now }
{
    match event {
        Event::Set { node, .. }
        | Event::Harden { node, .. }
        | Event::Apply { node, .. }
        | Event::Raise { node, .. }
        | Event::Redo { node, .. }
        | Event::Read { node, .. }
        | Event::Crash { node, .. }
        | Event::Start { node, .. }
        | Event::Page { node, .. }
        | Event::Sectors { node, .. }
        | Event::Status { node, .. } => is_letter(node),
        Event::Flush { node, suffix } => is_letter(node) && is_whole(suffix),
        Event::Send { node, to, .. }
        | Event::Deliver { node, to, .. }
        | Event::Repeat { node, to, .. }
        | Event::Lose { node, to, .. } => is_letter(node) && is_letter(to),
        _ => false,
    }
}
