//! The words of a step.
use std::str::SplitWhitespace;

/// A number, and 0 where there is none.
pub fn number(word: &str) -> u64 {
    word.parse::<u64>().unwrap_or(0)
}

/// The next word, which is empty where there is none.
pub fn next_word<'a>(words: &mut SplitWhitespace<'a>) -> &'a str {
    words.next().unwrap_or("")
}

/// The number of the next word.
pub fn next_number(words: &mut SplitWhitespace<'_>) -> u64 {
    number(next_word(words))
}

/// The small number of the next word.
pub fn next_small(words: &mut SplitWhitespace<'_>) -> u8 {
    next_word(words).parse::<u8>().unwrap_or(0)
}
