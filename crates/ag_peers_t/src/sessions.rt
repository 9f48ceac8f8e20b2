//! Sessions, and the laws of these crates.
use crate::words::{next_number, next_word, number};
use ag_model::config::Token;
use ag_session::{SessionFault, check};
use std::alloc::{AllocError, Global};
use std::str::SplitWhitespace;

/// The token of a word, as `1:3`, if it is one.
fn token_of(word: &str) -> Option<Token> {
    match word.split_once(':') {
        Some((term, lsn)) => Some(Token {
            term: number(term),
            lsn: number(lsn),
        }),
        None => None,
    }
}

/// A session against a replica: the words have the session's token, and the replica's term and LSN.
fn checked(words: &mut SplitWhitespace<'_>) -> Result<Token, SessionFault> {
    let token = token_of(next_word(words));
    let term = next_number(words);
    let lsn = next_number(words);
    check(token, term, lsn)
}

/// What the laws say holds of the calls of these crates. They do nothing.
fn laws() {
    ag_session::laws::session_law();
    ag_capture::laws::events_agree();
    ag_repair::laws::events_agree();
}

/// What a step on a session gave, if it is one.
pub fn step(
    alloc: Global,
    name: &str,
    words: &mut SplitWhitespace<'_>,
) -> Result<Option<String>, AllocError> {
    let text = match name {
        "check" => format!(in alloc; "{:?}", checked(words))?,
        "laws" => {
            laws();
            format!(in alloc; "called")?
        }
        _ => return Ok(None),
    };
    Ok(Some(text))
}
