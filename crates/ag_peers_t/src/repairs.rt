//! Pages that are asked for, given and taken. The first word of each step lists what holds.
use crate::words::{lists, next_number, next_small, next_word};
use ag_repair::{Arrival, Giving, arrives, may_give, wanted};
use std::alloc::{AllocError, Global};
use std::str::SplitWhitespace;

/// Whether a page may be asked for.
fn asked(words: &mut SplitWhitespace<'_>) -> bool {
    let holds = next_word(words);
    wanted(
        lists(holds, "pending"),
        lists(holds, "foreign"),
        lists(holds, "came"),
        next_small(words),
    )
}

/// What a replica does that is asked for a page.
fn given(words: &mut SplitWhitespace<'_>) -> Giving {
    let holds = next_word(words);
    let state = next_small(words);
    let stands = next_number(words);
    let asked = next_number(words);
    may_give(
        lists(holds, "bad"),
        state,
        lists(holds, "secondary"),
        lists(holds, "asker_primary"),
        stands,
        asked,
    )
}

/// What a replica does with a page that comes.
fn taken(words: &mut SplitWhitespace<'_>) -> Arrival {
    let holds = next_word(words);
    let state = next_small(words);
    let applied = next_number(words);
    let at = next_number(words);
    arrives(lists(holds, "wanted"), state, applied, at)
}

/// What a step on pages gave, if it is one.
pub fn step(
    alloc: Global,
    name: &str,
    words: &mut SplitWhitespace<'_>,
) -> Result<Option<String>, AllocError> {
    let text = match name {
        "ask" => format!(in alloc; "{}", asked(words))?,
        "give" => format!(in alloc; "{:?}", given(words))?,
        "arrive" => format!(in alloc; "{:?}", taken(words))?,
        _ => return Ok(None),
    };
    Ok(Some(text))
}
