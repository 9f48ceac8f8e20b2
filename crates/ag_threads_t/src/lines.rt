//! Plays a line, and says what it gave, in lines.
use crate::{scenario, step};
use ag_model::value::NoMemory;
use std::alloc::{AllocError, Global};
use std::io;
use std::sync::Wait;
use std::thread::Threads;

/// Memory was refused.
fn refused(_fault: NoMemory) -> io::Error {
    io::Error::from(io::ErrorKind::OutOfMemory)
}

/// A run of so many threads.
fn run<R: Threads + Wait + Sync>(
    rt: &R,
    alloc: Global,
    line: &str,
    threads: &str,
) -> Result<String, NoMemory> {
    let texts = scenario::compare(rt, alloc, step::number(Some(threads)))?;
    let mut said = format!(in alloc; "{line}\n")?;
    for text in texts.as_slice() {
        said.push_str(text.as_str())?;
        said.push_str("\n")?;
    }
    Ok(said)
}

/// Lines, each with what it gave.
fn said(alloc: Global, lines: &[String], texts: &[String]) -> Result<String, AllocError> {
    let mut said = String::new(alloc);
    for (line, text) in lines.iter().zip(texts.iter()) {
        let one = format!(in alloc; "{line}: {text}\n")?;
        said.push_str(one.as_str())?;
    }
    Ok(said)
}

/// The scenario of the lines that are held, once its last line has come. No line is held then.
fn close<R: Threads + Wait + Sync>(
    rt: &R,
    alloc: Global,
    held: &mut Vec<String>,
    line: String,
) -> Result<String, NoMemory> {
    let texts = scenario::play(rt, alloc, held.as_slice())?;
    held.push(line)?;
    let said = said(alloc, held.as_slice(), texts.as_slice())?;
    held.clear();
    Ok(said)
}

/// Holds a line of a scenario, of which nothing is said yet.
fn hold(alloc: Global, held: &mut Vec<String>, line: String) -> Result<String, NoMemory> {
    held.push(line)?;
    Ok(String::new(alloc))
}

/// Plays a line. The lines of a scenario are held until it ends.
fn played<R: Threads + Wait + Sync>(
    rt: &R,
    alloc: Global,
    held: &mut Vec<String>,
    line: String,
) -> Result<String, NoMemory> {
    if line.is_empty() || line.starts_with('#') {
        return Ok(format!(in alloc; "{line}\n")?);
    }
    if let Some(threads) = line.strip_prefix("run ") {
        return run(rt, alloc, &line, threads);
    }
    if line.as_str() == "close" {
        close(rt, alloc, held, line)
    } else {
        hold(alloc, held, line)
    }
}

/// The same, with an error of a program.
pub fn play<R: Threads + Wait + Sync>(
    rt: &R,
    alloc: Global,
    held: &mut Vec<String>,
    line: String,
) -> io::Result<String> {
    played(rt, alloc, held, line).map_err(refused)
}
