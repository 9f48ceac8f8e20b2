//! The event that a line says.
ghost use Rattle.std.specs.Prelude.{◌≡◌, ◌≤◌, IfOk};
ghost use Rattle.ag_script.specs.Lines.{words};
ghost use Rattle.ag_script.specs.Named.{event_at};

use crate::pairs::set;
use crate::transaction_lines::transaction_event;
use crate::words::Words;
use ag_model::config::Config;
use ag_model::event::Event;
use std::alloc::{AllocError, Global};

/// The event that a line says, if it says one.
#[tactic(auto, unfolding(crate::specs::Named::event_at))]
pub(crate) fn event_of(alloc: Global, c: &Config, line: &[u8]) -> Result<Option<Event>, AllocError>
    requires { c.now.pages ≤ 2048 }
    ensures { IfOk result (λ found. found ≡ event_at c.now (words line.now)) }
{
    let mut words = Words::new(line);
    let Some(name) = words.word() else {
        return Ok(None);
    };
    if name == b"set".as_slice() {
        return set(alloc, &mut words, c);
    }
    Ok(transaction_event(c, name, &mut words))
}
