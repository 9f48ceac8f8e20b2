//! Events that are printed, and lines that are read as scripts of five replicas and 2,048 pages.
ghost use Rattle.std.specs.Prelude.{IfOk};
ghost use Rattle.ag_rules.specs.Script.{IsConfig};

use ag_events::event::print_event;
use ag_model::config::{Config, Mode, ModeList};
use ag_model::event::{Event, EventList};
use ag_script::fault::ScriptFault;
use ag_script::script::read_events;
use std::alloc::{AllocError, Global};
use std::str;

/// The head of the scenario.
fn five(alloc: Global) -> Result<Config, AllocError>
    ensures { IfOk result (λ c. IsConfig c) }
{
    let mut modes = ModeList::new(alloc);
    modes.push(Mode::Auto)?;
    modes.push(Mode::Sync)?;
    modes.push(Mode::Async)?;
    modes.push(Mode::Sync)?;
    modes.push(Mode::Auto)?;
    Ok(Config {
        pages: 2048,
        modes,
        workers: 4,
        readers: 2,
    })
}

/// The line of an event, with its end, and an empty text where memory was refused.
pub fn line_of(alloc: Global, event: &Event) -> Result<String, AllocError> {
    let mut out = Vec::new(alloc);
    if print_event(event, &mut out).is_err() {
        return String::from_str(alloc, "no memory");
    }
    out.push(b'\n')?;
    String::from_str(alloc, str::from_utf8(&out).unwrap_or("no text"))
}

/// The events of a script of at most 16 MB.
fn read(alloc: Global, text: &str) -> Result<EventList, ScriptFault> {
    let config = five(alloc)?;
    let text = text.as_bytes();
    if text.len() > 16_777_216 {
        return Err(ScriptFault::NoMemory);
    }
    read_events(alloc, text, 1, &config)
}

/// What is printed of the events that are read from a script, or why none can be read.
pub fn again(alloc: Global, text: &str) -> Result<String, AllocError> {
    let events = match read(alloc, text) {
        Ok(events) => events,
        Err(fault) => return format!(in alloc; "{fault:?}"),
    };
    let mut lines = String::new(alloc);
    for event in events.as_slice() {
        let line = line_of(alloc, event)?;
        lines.push_str(&line)?;
    }
    Ok(lines)
}
