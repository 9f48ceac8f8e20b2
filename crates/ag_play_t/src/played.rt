//! Calls of `play` and `run`, behind functions without clauses.
use ag_group::play::play;
use ag_group::run::run;
use ag_outside::memory::{MemSink, MemSource};
use std::alloc::{AllocError, Global};

/// The first line of each transcript.
const HEADER: &[u8] = b"aglab 1 pages=16 replicas=sync,sync\n";

/// How a text is played, where these calls of the source and the sink fail, and what the sink took.
pub fn played(
    alloc: Global,
    text: &[u8],
    source_fails: u64,
    sink_fails: u64,
) -> Result<(String, Vec<u8>), AllocError> {
    let mut source = MemSource::new(
        Vec::from_slice(alloc, text)?,
        Vec::from_slice(alloc, &[source_fails])?,
    );
    let mut sink = MemSink::new(alloc, Vec::from_slice(alloc, &[sink_fails])?);
    let status = play(alloc, &mut source, &mut sink);
    let said = format!(in alloc; "{status:?}")?;
    Ok((said, Vec::from_slice(alloc, sink.bytes())?))
}

/// How a text is played, and whether its transcript is the header with these answers.
pub fn is_played_to(
    alloc: Global,
    text: &[u8],
    wanted: &[u8],
) -> Result<(String, bool), AllocError> {
    let (said, found) = played(alloc, text, 0, 0)?;
    let agrees = match found.strip_prefix(HEADER) {
        Some(answers) => answers == wanted,
        None => false,
    };
    Ok((said, agrees))
}

/// The answers to events, where they are played to their end, and else nothing.
pub fn answers(alloc: Global, events: &[u8]) -> Result<Vec<u8>, AllocError> {
    let mut text = Vec::from_slice(alloc, b"---\n")?;
    text.extend_from_slice(events)?;
    let (said, out) = played(alloc, &text, 0, 0)?;
    match out.strip_prefix(HEADER) {
        Some(rest) if said.as_str() == "Done" => Ok(Vec::from_slice(alloc, rest)?),
        _ => Ok(Vec::new(alloc)),
    }
}

/// How a command of these words ends over a text without a head.
pub fn ran(alloc: Global, first: Option<&str>, second: Option<&str>) -> Result<String, AllocError> {
    let mut texts = Vec::new(alloc);
    if let Some(word) = first {
        texts.push(word.to_string(alloc)?)?;
    }
    if let Some(word) = second {
        texts.push(word.to_string(alloc)?)?;
    }
    let mut source = MemSource::new(Vec::new(alloc), Vec::new(alloc));
    let mut sink = MemSink::new(alloc, Vec::new(alloc));
    let status = run(alloc, &texts, &mut source, &mut sink);
    format!(in alloc; "{status:?}")
}
