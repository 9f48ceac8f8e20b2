//! One, two and four threads at one front: one dispatches, others redo and read.
use crate::answers::Session;
use crate::hands::{Author, Bench, Hand, Naming};
use crate::turns::{watch, work, write};
use ag_model::stands::Steps;
use std::alloc::Global;
use std::sync::Wait;
use std::thread::{Threads, join};

/// How a run ended: a pass with the parts of all, the writer's session, and the reader's where it had a thread of its own.
pub type Ran<T, N> = (Hand<T, N>, Session, Option<Session>);

/// All on one thread.
pub fn alone<T: Steps, N: Naming, R: Wait>(
    rt: &R,
    alloc: Global,
    bench: &Bench<T, N>,
    author: Author<T, N>,
    reader: Hand<T, N>,
) -> Ran<T, N> {
    let (all, session) = write(rt, alloc, bench, author, reader, true);
    (all, session, None)
}

/// A writer and a worker, each in a thread of its own. The parts of the worker are those that the reader's pass can spare.
pub fn with_two<T: Steps + Send, N: Naming + Send + Sync, R: Threads + Wait + Sync>(
    rt: &R,
    alloc: Global,
    bench: &Bench<T, N>,
    author: Author<T, N>,
    mut reader: Hand<T, N>,
) -> Ran<T, N> {
    let Some(worker) = reader.split(bench, 1) else {
        return alone(rt, alloc, bench, author, reader);
    };
    let (written, worker) = join(
        rt,
        move || write(rt, alloc, bench, author, reader, false),
        move || work(rt, bench, worker),
    );
    let (mut all, session) = written;
    all.join(bench, worker);
    (all, session, None)
}

/// A worker and a reader, each in a thread of its own.
fn beside<T: Steps + Send, N: Naming + Send + Sync, R: Threads + Wait + Sync>(
    rt: &R,
    alloc: Global,
    bench: &Bench<T, N>,
    mut worker: Hand<T, N>,
) -> (Hand<T, N>, Option<Session>) {
    let Some(reader) = worker.split(bench, 1) else {
        return (work(rt, bench, worker), None);
    };
    let (mut all, watched) = join(
        rt,
        move || work(rt, bench, worker),
        move || watch(rt, alloc, bench, reader),
    );
    let (reader, session) = watched;
    all.join(bench, reader);
    (all, Some(session))
}

/// A writer, a reader and two workers, each in a thread of its own.
pub fn with_four<T: Steps + Send, N: Naming + Send + Sync, R: Threads + Wait + Sync>(
    rt: &R,
    alloc: Global,
    bench: &Bench<T, N>,
    author: Author<T, N>,
    mut reader: Hand<T, N>,
) -> Ran<T, N> {
    let Some(other) = reader.split(bench, 2) else {
        return alone(rt, alloc, bench, author, reader);
    };
    let (written, watched) = join(
        rt,
        move || with_two(rt, alloc, bench, author, reader),
        move || beside(rt, alloc, bench, other),
    );
    let (mut all, session, _) = written;
    let (other, reader) = watched;
    all.join(bench, other);
    (all, session, reader)
}
