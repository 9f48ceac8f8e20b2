//! Scripts of a group of two replicas and the pages 16 to 31, read. Their first line is line 10.
ghost use Rattle.std.specs.Prelude.{IfOk};
ghost use Rattle.ag_rules.specs.Script.{IsConfig};

use ag_model::config::{Config, Mode, ModeList};
use ag_model::event::{Event, EventList, Pair};
use ag_script::fault::ScriptFault;
use ag_script::script::read_events;
use std::alloc::{AllocError, Global};

/// The head of the scenario.
fn two(alloc: Global) -> Result<Config, AllocError>
    ensures { IfOk result (λ c. IsConfig c) }
{
    let mut modes = ModeList::new(alloc);
    modes.push(Mode::Sync)?;
    modes.push(Mode::Async)?;
    Ok(Config {
        pages: 16,
        modes,
        workers: 4,
        readers: 2,
    })
}

/// The events of a script of at most 16 MB.
fn read(alloc: Global, text: &[u8]) -> Result<EventList, ScriptFault> {
    let config = two(alloc)?;
    if text.len() > 16_777_216 {
        return Err(ScriptFault::NoMemory);
    }
    read_events(alloc, text, 10, &config)
}

/// A text in which `\n` stands for the end of a line, `\r` and `\0` for those bytes, and `\s` for a space.
fn unescaped(alloc: Global, text: &str) -> Result<String, AllocError> {
    let mut plain = text.replace(alloc, "\\n", "\n")?;
    for (escape, byte) in [("\\r", "\r"), ("\\0", "\0"), ("\\s", " ")] {
        plain = plain.replace(alloc, escape, byte)?;
    }
    Ok(plain)
}

/// How many events a script has, or what is wrong with it.
fn count_of(alloc: Global, text: &str) -> Result<String, AllocError> {
    match read(alloc, text.as_bytes()) {
        Ok(events) => format!(in alloc; "{}", events.len()),
        Err(fault) => format!(in alloc; "{fault:?}"),
    }
}

/// How many events a script has.
pub fn count(alloc: Global, text: &str) -> Result<String, AllocError> {
    let text = unescaped(alloc, text)?;
    count_of(alloc, &text)
}

/// How many events a script has that begins with so many lines of one event each.
pub fn count_many(alloc: Global, words: &str) -> Result<String, AllocError> {
    let (count, rest) = words.split_once(' ').unwrap_or((words, ""));
    let mut text = String::new(alloc);
    for _ in 0..count.parse::<u32>().unwrap_or(0) {
        text.push_str("redo B\n")?;
    }
    let rest = unescaped(alloc, rest)?;
    text.push_str(&rest)?;
    count_of(alloc, &text)
}

/// The pairs of a `set`, each with how many bytes its value has and these up to the last one that isn't zero.
fn said_pairs(alloc: Global, pairs: &[Pair]) -> Result<String, AllocError> {
    let mut said = String::new(alloc);
    for pair in pairs {
        let key = pair.key;
        let len = pair.value.len;
        let bytes = hex::encode(alloc, pair.value.bytes.as_slice())?;
        let bytes = bytes.trim_end_matches("00");
        write!(said, " {key}={len}:{bytes}")?;
    }
    Ok(said)
}

/// An event as text.
fn said_event(alloc: Global, event: &Event) -> Result<String, AllocError> {
    match event {
        Event::Set {
            node,
            pairs,
            suffix,
        } => {
            let pairs = said_pairs(alloc, pairs.as_slice())?;
            format!(in alloc; "Set {node:?}{pairs} {suffix:?}")
        }
        _ => format!(in alloc; "{event:?}"),
    }
}

/// The events of a script.
pub fn events(alloc: Global, text: &str) -> Result<String, AllocError> {
    let text = unescaped(alloc, text)?;
    let events = match read(alloc, text.as_bytes()) {
        Ok(events) => events,
        Err(fault) => return format!(in alloc; "{fault:?}"),
    };
    let mut said = String::new(alloc);
    for (index, event) in events.as_slice().iter().enumerate() {
        let between = if index == 0 { "" } else { "; " };
        let event = said_event(alloc, event)?;
        write!(said, "{between}{event}")?;
    }
    Ok(said)
}
