//! The text of a case, made from short steps.
use crate::case::number;
use std::alloc::{AllocError, Global};

/// A text, and the answers that are wanted of it.
#[derive(Drop)]
pub struct Texts {
    pub text: Vec<u8>,
    pub wanted: Vec<u8>,
}

impl Texts {
    /// No text.
    pub fn new(alloc: Global) -> Texts {
        Texts {
            text: Vec::new(alloc),
            wanted: Vec::new(alloc),
        }
    }

    /// Drops what was added.
    pub fn clear(&mut self) {
        self.text.clear();
        self.wanted.clear();
    }
}

/// Adds a line.
pub fn push_line(text: &mut Vec<u8>, line: &[u8]) -> Result<(), AllocError> {
    text.extend_from_slice(line)?;
    text.push(b'\n')?;
    Ok(())
}

/// Adds a line that sets a key of A to a value of so many bytes.
fn push_set(alloc: Global, text: &mut Vec<u8>, key: u64, bytes: u64) -> Result<(), AllocError> {
    text.extend_from_slice(format!(in alloc; "set A {key} ")?.as_bytes())?;
    push_value(text, bytes)?;
    text.push(b'\n')?;
    Ok(())
}

/// Adds a value of so many bytes.
fn push_value(text: &mut Vec<u8>, bytes: u64) -> Result<(), AllocError> {
    if bytes == 0 {
        text.push(b'-')?;
    }
    for _ in 0..bytes {
        text.extend_from_slice(b"ee".as_slice())?;
    }
    Ok(())
}

/// `pair KEY BYTES KEY BYTES`: a line that sets two keys of A to values of so many bytes.
fn push_pair(
    alloc: Global,
    text: &mut Vec<u8>,
    first: (u64, u64),
    second: (u64, u64),
) -> Result<(), AllocError> {
    text.extend_from_slice(format!(in alloc; "set A {} ", first.0)?.as_bytes())?;
    push_value(text, first.1)?;
    text.extend_from_slice(format!(in alloc; " {} ", second.0)?.as_bytes())?;
    push_value(text, second.1)?;
    text.push(b'\n')?;
    Ok(())
}

/// `sets KEY STEP COUNT BYTES`: so many sets of a value of so many bytes, the key of which goes on by a step.
fn sets(
    alloc: Global,
    text: &mut Vec<u8>,
    key: u64,
    step: u64,
    count: u64,
    bytes: u64,
) -> Result<(), AllocError> {
    let mut key = key;
    for _ in 0..count {
        push_set(alloc, text, key, bytes)?;
        key = key.wrapping_add(step);
    }
    Ok(())
}

/// `lsns FIRST COUNT`: the answers of so many sets of one pair.
fn lsns(alloc: Global, wanted: &mut Vec<u8>, first: u64, count: u64) -> Result<(), AllocError> {
    let mut lsn = first;
    for _ in 0..count {
        push_line(wanted, format!(in alloc; "lsn {lsn}")?.as_bytes())?;
        lsn = lsn.wrapping_add(2);
    }
    Ok(())
}

/// `rounds COUNT`: so many blocks of one pair, each of which is sent; and all answers but the last.
fn rounds(alloc: Global, texts: &mut Texts, count: u64) -> Result<(), AllocError> {
    for i in 0..count {
        push_set(alloc, &mut texts.text, i, 0)?;
        texts
            .text
            .extend_from_slice(b"harden A\nsend A B\n".as_slice())?;
        let end = i.wrapping_mul(2).wrapping_add(3);
        let told = format!(in alloc; "lsn {end}\nhardened {end}\n")?;
        texts.wanted.extend_from_slice(told.as_bytes())?;
        if i.wrapping_add(1) < count {
            push_line(
                &mut texts.wanted,
                format!(in alloc; "sent {end}")?.as_bytes(),
            )?;
        }
    }
    Ok(())
}

/// `bytes COUNT CODE`: a byte so many times.
fn bytes(text: &mut Vec<u8>, count: u64, code: u64) -> Result<(), AllocError> {
    let byte = (code % 256) as u8;
    for _ in 0..count {
        text.push(byte)?;
    }
    Ok(())
}

/// `repeat COUNT WORD WORD`: a line of two words so many times.
fn repeat(text: &mut Vec<u8>, count: u64, first: &str, second: &str) -> Result<(), AllocError> {
    for _ in 0..count {
        text.extend_from_slice(first.as_bytes())?;
        text.push(b' ')?;
        push_line(text, second.as_bytes())?;
    }
    Ok(())
}

/// Does a step that adds to a text or to what is wanted of it, if this is one.
pub fn add(alloc: Global, texts: &mut Texts, line: &str) -> Result<bool, AllocError> {
    let mut words = line.split_whitespace();
    let name = words.next().unwrap_or("");
    let first = number(words.next());
    let (second_word, third) = (words.next(), words.next());
    match name {
        "sets" => {
            let count = number(third);
            let length = number(words.next());
            sets(
                alloc,
                &mut texts.text,
                first,
                number(second_word),
                count,
                length,
            )?;
        }
        "pair" => {
            let second = (number(third), number(words.next()));
            push_pair(alloc, &mut texts.text, (first, number(second_word)), second)?;
        }
        "lsns" => lsns(alloc, &mut texts.wanted, first, number(second_word))?,
        "rounds" => rounds(alloc, texts, first)?,
        "bytes" => bytes(&mut texts.text, first, number(second_word))?,
        "repeat" => repeat(
            &mut texts.text,
            first,
            second_word.unwrap_or(""),
            third.unwrap_or(""),
        )?,
        _ => return Ok(false),
    }
    Ok(true)
}
