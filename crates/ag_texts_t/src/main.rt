//! Plays steps on the texts of scripts and transcripts from standard input, and prints what each gave. A line that is no
//! step is printed as it is.
#![tactic(auto)]

mod answers;
mod headers;
mod printing;
mod refusals;
mod scripts;

use std::alloc::{AllocError, Global};
use std::io;

/// What a step on a script or a header gave, if it is one.
fn told(alloc: Global, name: &str, text: &str) -> Result<Option<String>, AllocError> {
    let told = match name {
        "script" => scripts::count(alloc, text)?,
        "many" => scripts::count_many(alloc, text)?,
        "events" => scripts::events(alloc, text)?,
        "header" => headers::header(alloc, text)?,
        _ => return Ok(None),
    };
    Ok(Some(told))
}

/// Plays a step.
fn play(rt: &HostRuntime, line: &str) -> io::Result<()> {
    let (name, text) = line.split_once(' ').unwrap_or((line, ""));
    if name == "answers" {
        return answers::print_table(rt, text);
    }
    match told(rt.alloc(), name, text)? {
        Some(told) => println!(rt; "{line}: {told}"),
        None => println!(rt; "{line}"),
    }
}

fn main(rt: HostRuntime) -> io::Result<()> {
    for line in rt.lines(rt.alloc()) {
        play(&rt, &line?)?;
    }
    Ok(())
}
