//! A line of a script.
use ag_model::event::Suffix;

/// One step of a script. Numbers that a line lacks are 0.
#[derive(Clone, Copy)]
pub enum Step {
    Open { call: u64 },
    Harden { call: u64, suffix: Suffix },
    Redo,
    Apply { stripe: u8 },
    Row { snapshot: u64 },
    Value,
    Cells,
    Flush,
    Fall,
    Sound,
    Start { suffix: Suffix },
    Marks,
    Parts,
    Disk,
}

/// A number, and 0 where there is none.
fn number(word: Option<&str>) -> u64 {
    match word {
        Some(word) => match word.parse::<u64>() {
            Ok(n) => n,
            Err(_) => 0,
        },
        None => 0,
    }
}

/// Numbers that fit.
fn narrow(n: u64) -> u32 {
    if n <= 0xffff_ffff { n as u32 } else { 0 }
}

/// Where a step is to be cut short: by no number, by the call that fails, or by a write and the mask of its sectors.
fn suffix_of(a: Option<&str>, b: Option<&str>) -> Suffix {
    match a {
        None => Suffix::Whole,
        Some(_) => match b {
            None => Suffix::Fail {
                call: narrow(number(a)),
            },
            Some(_) => Suffix::Stop {
                write: narrow(number(a)),
                mask: number(b),
            },
        },
    }
}

/// The steps that take no number.
fn bare(name: &str) -> Option<Step> {
    match name {
        "redo" => Some(Step::Redo),
        "value" => Some(Step::Value),
        "cells" => Some(Step::Cells),
        "flush" => Some(Step::Flush),
        "fall" => Some(Step::Fall),
        "sound" => Some(Step::Sound),
        "marks" => Some(Step::Marks),
        "parts" => Some(Step::Parts),
        "disk" => Some(Step::Disk),
        _ => None,
    }
}

/// The step of a line, if it is one.
pub fn step_of(line: &str) -> Option<Step> {
    let mut words = line.split_whitespace();
    let name = words.next()?;
    let a = words.next();
    let b = words.next();
    let c = words.next();
    match name {
        "open" => Some(Step::Open { call: number(a) }),
        "harden" => Some(Step::Harden {
            call: number(a),
            suffix: suffix_of(b, c),
        }),
        "apply" => Some(Step::Apply {
            stripe: (number(a) % 16) as u8,
        }),
        "row" => Some(Step::Row {
            snapshot: number(a),
        }),
        "start" => Some(Step::Start {
            suffix: suffix_of(a, b),
        }),
        _ => bare(name),
    }
}
