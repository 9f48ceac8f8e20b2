//! A case and its lines: `#` and a name begins one, `|` adds a line to its text, `.` what has no end of a line, `>` a line to the
//! transcript that is wanted, and any other line is a step.
use crate::played::{is_played_to, played, ran};
use crate::texts::{Texts, push_line};
use crate::{groups, statuses, stops, texts};
use std::alloc::Global;
use std::{io, str};

/// The text of a case, and the transcript that is wanted of it.
#[derive(Drop)]
pub struct Case {
    texts: Texts,
}

impl Case {
    /// A case without a text.
    pub fn new(alloc: Global) -> Case {
        Case {
            texts: Texts::new(alloc),
        }
    }
}

/// A number, and 0 where there is none.
pub fn number(word: Option<&str>) -> u64 {
    match word {
        Some(word) => word.parse::<u64>().unwrap_or(0),
        None => 0,
    }
}

/// Takes a line of the input.
pub fn take_line(rt: &HostRuntime, case: &mut Case, line: &str) -> io::Result<()> {
    if line.starts_with('#') {
        case.texts.clear();
        println!(rt; "{line}")?;
    } else if let Some(text) = line.strip_prefix('|') {
        push_line(&mut case.texts.text, text.as_bytes())?;
    } else if let Some(text) = line.strip_prefix('.') {
        case.texts.text.extend_from_slice(text.as_bytes())?;
    } else if let Some(text) = line.strip_prefix('>') {
        push_line(&mut case.texts.wanted, text.as_bytes())?;
    } else if !texts::add(rt.alloc(), &mut case.texts, line)? {
        print_step(rt, case, line)?;
    }
    Ok(())
}

/// Does a step that prints.
fn print_step(rt: &HostRuntime, case: &Case, line: &str) -> io::Result<()> {
    let alloc = rt.alloc();
    let mut words = line.split_whitespace();
    let name = words.next().unwrap_or("");
    let first = words.next();
    let second = words.next();
    let text = case.texts.text.as_slice();
    match name {
        "play" => print_played(rt, text, number(first), number(second))?,
        "agree" => print_agreement(rt, text, case.texts.wanted.as_slice())?,
        "run" => println!(rt; "{line}: {}", ran(alloc, first, second)?)?,
        "statuses" => statuses::print(rt)?,
        "crashes" => println!(rt; "{line}: {}", stops::crashes(alloc, text)?)?,
        "stops" => println!(rt;
            "{line}: {}",
            stops::stops(alloc, text, number(first), second)?
        )?,
        "fails" => println!(rt;
            "{line}: {}",
            stops::fails(alloc, text, number(first), second)?
        )?,
        "opens" => println!(rt;
            "{line}: {}",
            groups::opens(alloc, number(first), number(second))?
        )?,
        "steps" => print_steps(rt, line, text, (number(first), number(second)))?,
        "answers" => print_answers(rt, text, number(first))?,
        _ => println!(rt; "{line}: no step")?,
    }
    Ok(())
}

/// Plays a text, and prints how it ends and whether its transcript is the one that is wanted.
fn print_agreement(rt: &HostRuntime, text: &[u8], wanted: &[u8]) -> io::Result<()> {
    let (status, agrees) = is_played_to(rt.alloc(), text, wanted)?;
    println!(rt; "{status}, agrees: {agrees}")
}

/// Performs the steps of a text on a new group whose disks fail at these calls, and prints how they end.
fn print_steps(rt: &HostRuntime, line: &str, text: &[u8], calls: (u64, u64)) -> io::Result<()> {
    let (ended, _) = groups::followed(rt.alloc(), 16, calls, text)?;
    println!(rt; "{line}: {ended:?}")
}

/// Performs the steps of a text on a new group of this number of pages, and prints how they end and their answers.
fn print_answers(rt: &HostRuntime, text: &[u8], pages: u64) -> io::Result<()> {
    let alloc = rt.alloc();
    let (ended, told) = groups::followed(alloc, pages, (0, 0), text)?;
    let ended = format!(in alloc; "{ended:?}")?;
    print_told(rt, &ended, told.as_slice())
}

/// Plays a text whose source and sink fail at these calls, and prints how it ends and what the sink took.
fn print_played(rt: &HostRuntime, text: &[u8], source: u64, sink: u64) -> io::Result<()> {
    let (status, taken) = played(rt.alloc(), text, source, sink)?;
    print_told(rt, &status, taken.as_slice())
}

/// Prints how a text ends, and what was written.
fn print_told(rt: &HostRuntime, ended: &str, told: &[u8]) -> io::Result<()> {
    match str::from_utf8(told) {
        Ok(told) => {
            println!(rt; "{ended}")?;
            print!(rt; "{told}")
        }
        Err(_) => println!(rt; "{ended}, and no text"),
    }
}
