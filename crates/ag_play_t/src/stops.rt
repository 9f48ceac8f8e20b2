//! Scripts in which a node crashes before a line, is stopped in a write of a line, or has a call of its disk fail there.
use crate::committed::Committed;
use crate::played::answers;
use crate::texts::push_line;
use std::alloc::{AllocError, Global};
use std::str;

/// How a script was answered.
#[derive(Clone, Copy, PartialEq, Eq)]
enum Told {
    /// As the log of its primary allows.
    Right,
    /// The same, where the line with a suffix was stopped or failed.
    Reached,
    /// There isn't an answer a line.
    Count,
    /// A row or a page isn't of the log.
    Row,
    /// The node doesn't start again.
    Start,
}

impl Told {
    /// What is wrong with it, if anything.
    fn fault(&self) -> Option<&'static str> {
        match self {
            Told::Right | Told::Reached => None,
            Told::Count => Some("not an answer a line"),
            Told::Row => Some("a row or a page isn't of the primary's log"),
            Told::Start => Some("the node doesn't start"),
        }
    }
}

/// The lines of a text.
fn lines_of(alloc: Global, text: &[u8]) -> Result<Vec<&str>, AllocError> {
    let mut lines = Vec::new(alloc);
    if let Ok(text) = str::from_utf8(text) {
        for line in text.lines() {
            lines.push(line)?;
        }
    }
    Ok(lines)
}

/// Follows the answers to a script, whose line at this place was followed by a start of its node.
fn follow(alloc: Global, script: &[&str], told: &[&str], at: usize) -> Result<Told, AllocError> {
    if told.len() != script.len() {
        return Ok(Told::Count);
    }
    let mut committed = Committed::new(alloc);
    let mut is_reached = false;
    for (i, (line, answer)) in script.iter().zip(told).enumerate() {
        if !committed.follow(alloc, *line, *answer)? {
            return Ok(Told::Row);
        }
        if i == at {
            is_reached = answer.starts_with("stopped ") || answer.starts_with("device_failed ");
            is_reached |= line.starts_with("crash ");
        }
        if is_reached && i == at.wrapping_add(1) && !answer.starts_with("started ") {
            return Ok(Told::Start);
        }
    }
    Ok(if is_reached {
        Told::Reached
    } else {
        Told::Right
    })
}

/// Plays a script, whose line at this place is followed by a start of its node, and follows its answers.
fn play_with_start(alloc: Global, script: &[u8], at: usize) -> Result<Told, AllocError> {
    let out = answers(alloc, script)?;
    let lines = lines_of(alloc, script)?;
    let told = lines_of(alloc, out.as_slice())?;
    follow(alloc, lines.as_slice(), told.as_slice(), at)
}

/// The script, where a node crashes and starts again before a line.
fn with_crash(alloc: Global, lines: &[&str], at: usize, node: &str) -> Result<Vec<u8>, AllocError> {
    let mut text = Vec::new(alloc);
    for (i, line) in lines.iter().enumerate() {
        if i == at {
            let more = format!(in alloc; "crash {node}\nstart {node}")?;
            push_line(&mut text, more.as_bytes())?;
        }
        push_line(&mut text, line.as_bytes())?;
    }
    Ok(text)
}

/// The script, where one line has a suffix and is followed by a start of its node.
fn with_suffix(
    alloc: Global,
    lines: &[&str],
    at: usize,
    node: &str,
    suffix: &str,
) -> Result<Vec<u8>, AllocError> {
    let mut text = Vec::new(alloc);
    for (i, line) in lines.iter().enumerate() {
        text.extend_from_slice(line.as_bytes())?;
        if i == at {
            let more = format!(in alloc; "{suffix}\nstart {node}")?;
            text.extend_from_slice(more.as_bytes())?;
        }
        text.push(b'\n')?;
    }
    Ok(text)
}

/// Plays a script once for each line and each node, which crashes before it: how many were answered right, or what is wrong.
pub fn crashes(alloc: Global, script: &[u8]) -> Result<String, AllocError> {
    let lines = lines_of(alloc, script)?;
    let mut right = 0u64;
    for at in 0..lines.len() {
        for node in ["A", "B"] {
            let text = with_crash(alloc, lines.as_slice(), at, node)?;
            if let Some(fault) = play_with_start(alloc, &text, at)?.fault() {
                return format!(in alloc; "line {at}, node {node}: {fault}");
            }
            right = right.wrapping_add(1);
        }
    }
    format!(in alloc; "{right} right")
}

/// How many places of a line are reached one after the other, by a suffix with the number of the place, or what is wrong.
fn reached(
    alloc: Global,
    lines: &[&str],
    at: usize,
    node: &str,
    suffix: (&str, &str),
) -> Result<String, AllocError> {
    let (before, after) = suffix;
    let mut count = 0u64;
    for place in 1..9u64 {
        let suffix = format!(in alloc; " {before} {place}{after}")?;
        let text = with_suffix(alloc, lines, at, node, &suffix)?;
        let told = play_with_start(alloc, &text, at)?;
        if let Some(fault) = told.fault() {
            return format!(in alloc; "place {place}: {fault}");
        }
        if told == Told::Right {
            break;
        }
        count = count.wrapping_add(1);
    }
    format!(in alloc; "{count}")
}

/// `stops LINE NODE`: how many writes of a line are stopped, for each of three masks.
pub fn stops(
    alloc: Global,
    script: &[u8],
    line: u64,
    node: Option<&str>,
) -> Result<String, AllocError> {
    let (lines, at) = (lines_of(alloc, script)?, line as usize);
    let node = node.unwrap_or("");
    let mut text = String::new(alloc);
    for mask in [" 0", " 5555555555555555", " ffffffffffffffff"] {
        let count = reached(alloc, lines.as_slice(), at, node, ("stop", mask))?;
        if !text.is_empty() {
            text.push_str(", ")?;
        }
        text.push_str(&count)?;
    }
    Ok(text)
}

/// `fails LINE NODE`: how many calls of the disk fail in a line.
pub fn fails(
    alloc: Global,
    script: &[u8],
    line: u64,
    node: Option<&str>,
) -> Result<String, AllocError> {
    let lines = lines_of(alloc, script)?;
    reached(
        alloc,
        lines.as_slice(),
        line as usize,
        node.unwrap_or(""),
        ("fail", ""),
    )
}
