//! Heads, and what they say.
use ag_config::read_config;
use ag_model::config::Config;
use std::alloc::{AllocError, Global};

/// A config as a line.
fn config_text(alloc: Global, config: &Config) -> Result<String, AllocError> {
    let mut text = format!(in alloc;
        "{} pages, {} workers, {} readers",
        config.pages, config.workers, config.readers
    )?;
    for mode in config.modes.as_slice() {
        write!(text, ", {mode:?}")?;
    }
    Ok(text)
}

/// What a head says, or its first fault.
fn said(alloc: Global, head: &[u8]) -> Result<String, AllocError> {
    match read_config(alloc, head) {
        Ok(config) => config_text(alloc, &config),
        Err(fault) => format!(in alloc; "{fault:?}"),
    }
}

/// Adds a text several times.
fn push_times(text: &mut String, piece: &str, count: u32) -> Result<(), AllocError> {
    for _ in 0..count {
        text.push_str(piece)?;
    }
    Ok(())
}

/// A head in which `|` stands for the end of a line.
fn lines_of(alloc: Global, text: &str) -> Result<String, AllocError> {
    text.replace(alloc, "|", "\n")
}

/// A head of texts between which `~` stands: one, a second so many times, a third, and a fourth so many times.
fn repeated(alloc: Global, count: u32, text: &str) -> Result<String, AllocError> {
    let text = lines_of(alloc, text)?;
    let mut pieces = text.split('~');
    let mut head = String::from_str(alloc, pieces.next().unwrap_or(""))?;
    push_times(&mut head, pieces.next().unwrap_or(""), count)?;
    head.push_str(pieces.next().unwrap_or(""))?;
    push_times(&mut head, pieces.next().unwrap_or(""), count)?;
    Ok(head)
}

/// What a head of repeated texts says.
fn said_repeated(alloc: Global, words: &str) -> Result<String, AllocError> {
    let (count, text) = words.split_once(' ').unwrap_or((words, ""));
    let head = repeated(alloc, count.parse::<u32>().unwrap_or(0), text)?;
    said(alloc, head.as_bytes())
}

/// What a head says whose bytes are given in hex.
fn said_of_bytes(alloc: Global, digits: &str) -> Result<String, AllocError> {
    match hex::decode(alloc, digits) {
        Ok(bytes) => said(alloc, &bytes),
        Err(_) => format!(in alloc; "no bytes"),
    }
}

/// Plays a step, if the line is one.
pub fn play(alloc: Global, line: &str) -> Result<Option<String>, AllocError> {
    let (name, text) = line.split_once(' ').unwrap_or((line, ""));
    let told = match name {
        "head" => said(alloc, lines_of(alloc, text)?.as_bytes())?,
        "bytes" => said_of_bytes(alloc, text)?,
        "times" => said_repeated(alloc, text)?,
        _ => return Ok(None),
    };
    Ok(Some(told))
}
