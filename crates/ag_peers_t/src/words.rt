//! The words of a step.
use std::str::SplitWhitespace;

/// A number, and 0 where there is none.
pub fn number(word: &str) -> u64 {
    word.parse::<u64>().unwrap_or(0)
}

/// A small number, and 255 where there is none.
pub fn small(word: &str) -> u8 {
    word.parse::<u8>().unwrap_or(255)
}

/// The next word, which is empty where there is none.
pub fn next_word<'a>(words: &mut SplitWhitespace<'a>) -> &'a str {
    words.next().unwrap_or("")
}

/// The number of the next word.
pub fn next_number(words: &mut SplitWhitespace<'_>) -> u64 {
    number(next_word(words))
}

/// The small number of the next word.
pub fn next_small(words: &mut SplitWhitespace<'_>) -> u8 {
    small(next_word(words))
}

/// Whether a word lists a name, with commas between the names.
pub fn lists(word: &str, name: &str) -> bool {
    word.split(',').any(|listed| listed == name)
}
