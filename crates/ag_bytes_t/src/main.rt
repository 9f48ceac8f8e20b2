//! Plays steps on lists, page sets, records, blocks and messages from standard input, and prints what each gave. A line that is
//! no step is printed as it is. The steps work on the bytes that a step before them holds.
#![tactic(auto)]

mod blocks;
mod lists;
mod messages;
mod printing;
mod records;
mod sets;
mod stands;
mod words;

use ag_logblock::Sector;
use std::alloc::{AllocError, Global};
use std::io;

/// What a script holds between its steps.
#[derive(Drop)]
struct Held {
    bytes: Vec<u8>,
    sectors: Vec<Sector>,
}

/// What a step on lists and sets gave, if it is one.
fn told_of_model(alloc: Global, name: &str, text: &str) -> Result<Option<String>, AllocError> {
    let told = match name {
        "lists" => lists::joined(alloc, text)?,
        "set" => sets::inserted(alloc, text)?,
        "stands" => stands::opened(alloc)?,
        "sectors" => blocks::sectors(alloc, text)?,
        _ => return Ok(None),
    };
    Ok(Some(told))
}

/// What a step on bytes gave, if it is one.
fn told_of_bytes(
    alloc: Global,
    held: &Held,
    name: &str,
    text: &str,
) -> Result<Option<String>, AllocError> {
    let bytes = words::changed(alloc, &held.bytes, text)?;
    let told = match name {
        "record" => records::record(alloc, &bytes)?,
        "records" => records::records(alloc, &bytes)?,
        "numbers" => records::numbers(alloc, &bytes)?,
        "message" => messages::message(alloc, &bytes)?,
        "each" => messages::each(alloc, &bytes)?,
        _ => return Ok(None),
    };
    Ok(Some(told))
}

/// What a step on a block gave, if it is one.
fn told_of_block(
    alloc: Global,
    held: &mut Held,
    name: &str,
    text: &str,
) -> Result<Option<String>, AllocError> {
    let told = match name {
        "bytes" => {
            held.bytes = words::bytes_of(alloc, text)?;
            format!(in alloc; "{}", held.bytes.len())?
        }
        "cut" => blocks::cut(alloc, &held.bytes, &mut held.sectors, text)?,
        "keep" => {
            held.sectors.truncate(words::number(Some(text)) as usize);
            format!(in alloc; "{}", held.sectors.len())?
        }
        "join" => blocks::join(alloc, &held.sectors, text)?,
        _ => return Ok(None),
    };
    Ok(Some(told))
}

/// What a step gave, if the line is one.
fn told(alloc: Global, held: &mut Held, line: &str) -> Result<Option<String>, AllocError> {
    let (name, text) = line.split_once(' ').unwrap_or((line, ""));
    if let Some(told) = told_of_model(alloc, name, text)? {
        return Ok(Some(told));
    }
    if let Some(told) = told_of_block(alloc, held, name, text)? {
        return Ok(Some(told));
    }
    told_of_bytes(alloc, held, name, text)
}

fn main(rt: HostRuntime) -> io::Result<()> {
    let alloc = rt.alloc();
    let mut held = Held {
        bytes: Vec::new(alloc),
        sectors: Vec::new(alloc),
    };
    for line in rt.lines(alloc) {
        let line = line?;
        match told(alloc, &mut held, &line)? {
            Some(told) => println!(rt; "{line}: {told}")?,
            None => println!(rt; "{line}")?,
        }
    }
    Ok(())
}
