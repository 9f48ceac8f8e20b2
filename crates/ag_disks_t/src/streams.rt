//! Steps of sources and sinks.
use crate::words::{hex, number, numbers, word};
use ag_outside::adapters::{ReadSource, WriteSink};
use ag_outside::memory::{MemSink, MemSource};
use ag_outside::stream::{Failed, Sink, Source};
use ag_outside::whole::{read_all, write_all};
use std::alloc::{AllocError, Global};

/// A source and a sink in memory.
#[derive(Drop)]
pub struct Streams {
    source: MemSource,
    sink: MemSink,
}

impl Streams {
    /// Both empty, and with no call that fails.
    pub fn new(alloc: Global) -> Streams {
        Streams {
            source: MemSource::new(Vec::new(alloc), Vec::new(alloc)),
            sink: MemSink::new(alloc, Vec::new(alloc)),
        }
    }
}

/// Reads into so many bytes, at most 8, and says what came.
fn take<S: Source>(alloc: Global, source: &mut S, count: u64) -> Result<String, AllocError> {
    let mut buf = [0; 8];
    let (front, _) = buf.split_at_mut(count.min(8) as usize);
    let read = source.read(front);
    let text = hex(alloc, front, 8)?;
    format!(in alloc; "{read:?} {text}")
}

/// Reads a source to its end, and says what came.
fn take_all<S: Source>(alloc: Global, source: &mut S) -> Result<String, AllocError> {
    match read_all(alloc, source) {
        Ok(bytes) => hex(alloc, bytes.as_slice(), usize::MAX),
        Err(e) => format!(in alloc; "{e:?}"),
    }
}

/// Writes to a sink that was made over a vector, and then nothing.
fn write_through(alloc: Global, bytes: &[u8]) -> (Result<(), Failed>, Result<usize, Failed>) {
    let mut sink = WriteSink::new(Vec::new(alloc));
    let wrote = write_all(&mut sink, bytes);
    (wrote, sink.write(b""))
}

/// Plays a step, if it is one of streams.
pub fn play(
    alloc: Global,
    streams: &mut Streams,
    line: &str,
) -> Result<Option<String>, AllocError> {
    let numbers = numbers(alloc, line)?;
    let text = word(line, 1).as_bytes();
    let answer = match word(line, 0) {
        "source" => {
            streams.source = MemSource::new(Vec::from_slice(alloc, text)?, numbers);
            format!(in alloc; "made")?
        }
        "sink" => {
            streams.sink = MemSink::new(alloc, numbers);
            format!(in alloc; "made")?
        }
        "take" => take(alloc, &mut streams.source, number(numbers.as_slice(), 0))?,
        "take_all" => take_all(alloc, &mut streams.source)?,
        "give" => format!(in alloc; "{:?}", streams.sink.write(text))?,
        "give_all" => format!(in alloc; "{:?}", write_all(&mut streams.sink, text))?,
        "given" => hex(alloc, streams.sink.bytes(), usize::MAX)?,
        "read_through" => take_all(alloc, &mut ReadSource::new(text))?,
        "write_through" => format!(in alloc; "{:?}", write_through(alloc, text))?,
        _ => return Ok(None),
    };
    Ok(Some(answer))
}
