//! Steps of frames, whose pages are numbers.
use ag_frame::Frames;
use std::alloc::{AllocError, Global};

/// The frames of the steps so far, once they were made.
#[derive(Drop)]
pub struct Held {
    frames: Option<Frames<u64>>,
}

impl Held {
    /// No frames yet.
    pub fn new() -> Held {
        Held { frames: None }
    }
}

/// The word of this number, and nothing where there is none.
fn word(line: &str, number: usize) -> &str {
    match line.split_whitespace().nth(number) {
        Some(word) => word,
        None => "",
    }
}

/// The word as a page's number, and 0 where it is none.
fn page_number(line: &str) -> u16 {
    match word(line, 1).parse::<u16>() {
        Ok(page) => page,
        Err(_) => 0,
    }
}

/// The word as a page, and 0 where it is none.
fn page(line: &str) -> u64 {
    match word(line, 2).parse::<u64>() {
        Ok(page) => page,
        Err(_) => 0,
    }
}

/// Makes frames, at least one.
fn make(alloc: Global, held: &mut Held, line: &str) -> bool {
    let count = (page_number(line) % 256) as u8;
    if count == 0 {
        return false;
    }
    match Frames::with_frames(alloc, count) {
        Ok(frames) => {
            held.frames = Some(frames);
            true
        }
        Err(_) => false,
    }
}

/// Puts a page in, unless a frame holds it.
fn admit(frames: &mut Frames<u64>, number: u16, page: u64) -> Option<Option<(u16, u64)>> {
    if frames.holds(number) {
        return None;
    }
    Some(frames.admit(number, page))
}

/// Writes over a page, and gives what stood there.
fn write(frames: &mut Frames<u64>, number: u16, page: u64) -> Option<u64> {
    let place = frames.look(number)?;
    let before = *place;
    *place = page;
    Some(before)
}

/// The page, if a frame holds it.
fn read(frames: &mut Frames<u64>, number: u16) -> Option<u64> {
    let place = frames.look(number)?;
    Some(*place)
}

/// Plays a step on frames that were made.
fn on_frames(alloc: Global, frames: &mut Frames<u64>, line: &str) -> Result<String, AllocError> {
    let number = page_number(line);
    match word(line, 0) {
        "holds" => format!(in alloc; "{}", frames.holds(number)),
        "look" => format!(in alloc; "{:?}", read(frames, number)),
        "write" => format!(in alloc; "{:?}", write(frames, number, page(line))),
        "admit" => format!(in alloc; "{:?}", admit(frames, number, page(line))),
        "discard" => format!(in alloc; "{:?}", frames.discard(number)),
        _ => format!(in alloc; "no such step"),
    }
}

/// Plays a step.
pub fn play(alloc: Global, held: &mut Held, line: &str) -> Result<String, AllocError> {
    if word(line, 0) == "make" {
        let made = make(alloc, held, line);
        return format!(in alloc; "{made}");
    }
    match &mut held.frames {
        Some(frames) => on_frames(alloc, frames, line),
        None => format!(in alloc; "no frames"),
    }
}
