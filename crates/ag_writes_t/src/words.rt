//! The words of a line.
use ag_model::event::Suffix;
use std::str::SplitWhitespace;

/// The next word, which is empty where there is none.
pub fn next_word<'a>(words: &mut SplitWhitespace<'a>) -> &'a str {
    words.next().unwrap_or("")
}

/// The number of the next word, and 0 where there is none.
pub fn next_number(words: &mut SplitWhitespace<'_>) -> u32 {
    next_word(words).parse::<u32>().unwrap_or(0)
}

/// The mask of the next word, and 0 where there is none.
fn next_mask(words: &mut SplitWhitespace<'_>) -> u64 {
    next_word(words).parse::<u64>().unwrap_or(0)
}

/// The suffix that the next words say: `stop W MASK` or `fail C`, and else the event is whole.
pub fn next_suffix(words: &mut SplitWhitespace<'_>) -> Suffix {
    match next_word(words) {
        "stop" => {
            let write = next_number(words);
            let mask = next_mask(words);
            Suffix::Stop { write, mask }
        }
        "fail" => Suffix::Fail {
            call: next_number(words),
        },
        _ => Suffix::Whole,
    }
}
