//! Printed bytes as text.
use ag_model::answer::Answer;
use ag_transcript::answer::print_answer;
use std::alloc::{AllocError, Global};
use std::{io, str};

/// What was printed, unless memory was refused.
pub fn text_of(alloc: Global, is_whole: bool, bytes: &[u8]) -> Result<String, AllocError> {
    if !is_whole {
        return format!(in alloc; "no memory");
    }
    match str::from_utf8(bytes) {
        Ok(text) => String::from_str(alloc, text),
        Err(_) => format!(in alloc; "{bytes:?}"),
    }
}

/// An answer as text.
fn answer_text(alloc: Global, answer: &Answer) -> Result<String, AllocError> {
    let mut out = Vec::new(alloc);
    let result = print_answer(answer, &mut out);
    text_of(alloc, result.is_ok(), &out)
}

/// Prints an answer on a line.
pub fn print_line(rt: &HostRuntime, answer: &Answer) -> io::Result<()> {
    let text = answer_text(rt.alloc(), answer)?;
    println!(rt; "{text}")
}

/// Prints answers, each on a line.
pub fn print_lines(rt: &HostRuntime, answers: &[Answer]) -> io::Result<()> {
    for answer in answers {
        print_line(rt, answer)?;
    }
    Ok(())
}
