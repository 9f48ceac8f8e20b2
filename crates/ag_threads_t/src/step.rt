//! A step of a scenario.
use std::alloc::{AllocError, Global};

/// One call at a front. Numbers that a text lacks are 0.
#[derive(Clone, Copy)]
pub enum Step {
    Put { first: u64, key: u32, byte: u8 },
    Trim,
    Front,
    Read { key: u32 },
    Try { key: u32 },
    At { key: u32, lsn: u64 },
    Fetch { stripe: u8 },
    Apply { stripe: u8 },
    Raise { stripe: u8 },
    Turn,
    Split { parts: u32 },
    Join,
    Held { key: u32 },
}

/// A number, and 0 where there is none.
pub fn number(word: Option<&str>) -> u64 {
    match word {
        Some(word) => match word.parse::<u64>() {
            Ok(n) => n,
            Err(_) => 0,
        },
        None => 0,
    }
}

/// A number, and 0 where it doesn't fit.
pub fn narrow(n: u64) -> u32 {
    if n <= 0xffff_ffff { n as u32 } else { 0 }
}

/// The same as a byte.
pub fn byte(n: u64) -> u8 {
    if n <= 0xff { n as u8 } else { 0 }
}

/// The step of a word and its numbers, if it is one.
fn step_by(word: &str, a: u64, b: u64, c: u64) -> Option<Step> {
    match word {
        "put" => Some(Step::Put {
            first: a,
            key: narrow(b),
            byte: byte(c),
        }),
        "trim" => Some(Step::Trim),
        "front" => Some(Step::Front),
        "read" => Some(Step::Read { key: narrow(a) }),
        "try" => Some(Step::Try { key: narrow(a) }),
        "at" => Some(Step::At {
            lsn: a,
            key: narrow(b),
        }),
        "fetch" => Some(Step::Fetch { stripe: byte(a) }),
        "apply" => Some(Step::Apply { stripe: byte(a) }),
        "raise" => Some(Step::Raise { stripe: byte(a) }),
        "turn" => Some(Step::Turn),
        "split" => Some(Step::Split { parts: narrow(a) }),
        "join" => Some(Step::Join),
        "held" => Some(Step::Held { key: narrow(a) }),
        _ => None,
    }
}

/// The steps of a line, between semicolons. What is no step is left out.
pub fn steps_of(alloc: Global, line: &str) -> Result<Vec<Step>, AllocError> {
    let mut steps = Vec::new(alloc);
    for piece in line.split(';') {
        let mut words = piece.split_whitespace();
        let word = words.next().unwrap_or("");
        let a = number(words.next());
        let b = number(words.next());
        let c = number(words.next());
        if let Some(step) = step_by(word, a, b, c) {
            steps.push(step)?;
        }
    }
    Ok(steps)
}
