//! Headers of transcripts as text.
use crate::printing::text_of;
use ag_model::config::{Config, Mode, ModeList};
use ag_transcript::header::print_header;
use std::alloc::{AllocError, Global};

/// The mode that a word names.
fn mode_of(word: &str) -> Mode {
    match word {
        "auto" => Mode::Auto,
        "sync" => Mode::Sync,
        _ => Mode::Async,
    }
}

/// The header of a group with so many pages and these modes.
pub fn header(alloc: Global, words: &str) -> Result<String, AllocError> {
    let mut words = words.split_whitespace();
    let pages = words.next().unwrap_or("").parse::<u16>().unwrap_or(0);
    let mut modes = ModeList::new(alloc);
    for word in words {
        modes.push(mode_of(word))?;
    }
    let config = Config {
        pages,
        modes,
        workers: 4,
        readers: 2,
    };
    let mut out = Vec::new(alloc);
    let result = print_header(&config, &mut out);
    text_of(alloc, result.is_ok(), &out)
}
