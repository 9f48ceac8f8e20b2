//! Plays lines on a node, and says what each gave as text.
use crate::fixture;
use crate::held::Held;
use ag_model::answer::Answer;
use ag_node::fault::NodeFault;
use ag_outside::disk::Disk;
use ag_transcript::answer::print_answer;
use std::alloc::{AllocError, Global};

/// A number, and 0 where there is none.
fn number(word: Option<&str>) -> u64 {
    match word {
        Some(word) => word.parse::<u64>().unwrap_or(0),
        None => 0,
    }
}

/// An answer as a transcript has it, or the fault that came.
fn text_of(alloc: Global, answer: Option<Result<Answer, NodeFault>>) -> Result<String, AllocError> {
    match answer {
        None => format!(in alloc; "no page"),
        Some(Err(e)) => format!(in alloc; "{e:?}"),
        Some(Ok(answer)) => {
            let mut text = Vec::new(alloc);
            match print_answer(&answer, &mut text) {
                Ok(()) => Ok(String::from_utf8_lossy(alloc, text.as_slice())?),
                Err(_) => format!(in alloc; "no memory"),
            }
        }
    }
}

/// Opens a node whose disk fails at this call.
fn open(alloc: Global, held: &mut Option<Held>, call: u64) -> Result<String, AllocError> {
    match fixture::open(alloc, Vec::from_slice(alloc, &[call])?) {
        Ok(node) => {
            let up = node.is_up();
            *held = Some(node);
            format!(in alloc; "up {up}")
        }
        Err(e) => format!(in alloc; "{e:?}"),
    }
}

/// Opens a node whose disk fails at this call, and hardens a block.
fn harden(alloc: Global, held: &mut Option<Held>, call: u64) -> Result<String, AllocError> {
    match fixture::hardened(alloc, Vec::from_slice(alloc, &[call])?) {
        Ok((node, answer)) => {
            let up = node.is_up();
            *held = Some(node);
            let text = text_of(alloc, Some(answer))?;
            format!(in alloc; "{text}, up {up}")
        }
        Err(e) => format!(in alloc; "{e:?}"),
    }
}

/// Plays a line.
pub fn play(alloc: Global, held: &mut Option<Held>, line: &str) -> Result<String, AllocError> {
    let mut words = line.split_whitespace();
    let name = words.next().unwrap_or("");
    let n = number(words.next());
    match name {
        "open" => return open(alloc, held, n),
        "harden" => return harden(alloc, held, n),
        _ => {}
    }
    let page = (n % 65_536) as u16;
    match held {
        None => format!(in alloc; "none"),
        Some(node) => match name {
            "sectors" => text_of(alloc, node.sectors(alloc, page)),
            "page" => text_of(alloc, node.page(page)),
            "flush" => text_of(alloc, node.flush()),
            "disk" => sectors(alloc, held.take()),
            _ => format!(in alloc; "no step"),
        },
    }
}

/// How many sectors the disk of a node has.
fn sectors(alloc: Global, held: Option<Held>) -> Result<String, AllocError> {
    match held {
        None => format!(in alloc; "none"),
        Some(node) => format!(in alloc; "{} sectors", node.into_disk().sectors()),
    }
}
