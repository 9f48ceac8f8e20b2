//! A front from its making to its end, as lines say.
ghost use Rattle.std.specs.Prelude.{◌≡◌, true};
ghost use Rattle.ag_model.specs.Stripes.{opening_log};

use crate::answers::Session;
use crate::gate::Gate;
use crate::hands::{Naming, begin, close};
use crate::one_page::OnePage;
use crate::opening::{Opened, opened};
use crate::playing::{Players, play_line};
use crate::runs::{alone, with_four, with_two};
use crate::turns::{END, look_back};
use ag_model::record::Log;
use ag_model::stands::Stands;
use ag_model::value::NoMemory;
use std::alloc::{AllocError, Global};
use std::marker::Brand;
use std::sync::Wait;
use std::thread::Threads;

/// Stripes and log as a front hands them back.
pub type Closed<'a, R> = (Vec<OnePage<'a, R>>, Log);

/// What a run of a writer left: the front at its end, stripes and log, and what was answered: to the writer, to a reader if there was
/// one, and once more at older fronts.
#[derive(Drop)]
pub struct Home<'a, R: Wait> {
    front: u64,
    closed: Closed<'a, R>,
    writer: Session,
    reader: Option<Session>,
    back: Session,
}

/// Plays lines at a front, and closes it.
fn play_lines<'a, N: Naming + Send + Sync, R: Threads + Wait + Sync>(
    rt: &'a R,
    alloc: Global,
    gate: &'a Gate,
    opened: Opened<'a, R>,
    lines: &[String],
) -> Result<(Vec<String>, Option<Closed<'a, R>>), AllocError>
    requires front { opened.0.table.shared.table_id ≡ N.table }
    requires pass { (opened.1.seat.table_id ≡ N.table) × (opened.1.seat.me.0.parts ≡ 4096) × (opened.1.seat.me.0.author ≡ true) }
    requires seen { (opened.1.seat.me.0.seen ≡ opening_log) × (opened.1.seat.me.0.pages ≡ 16) }
{
    let (front, pass) = opened;
    let (bench, author, hand) = begin::<_, N>(front, pass);
    let mut players = Players {
        author: Some(author),
        hand,
        aside: None,
    };
    let mut texts = Vec::new(alloc);
    for line in lines {
        let text = play_line(rt, alloc, gate, &bench, &mut players, line.as_str())?;
        texts.push(text)?;
    }
    let all = players.joined(&bench);
    Ok((texts, close(bench, all)))
}

/// Has so many threads write, redo and read at a front, and closes it.
fn run<'a, N: Naming + Send + Sync, R: Threads + Wait + Sync>(
    rt: &'a R,
    alloc: Global,
    opened: Opened<'a, R>,
    threads: u64,
) -> Option<Home<'a, R>>
    requires front { opened.0.table.shared.table_id ≡ N.table }
    requires pass { (opened.1.seat.table_id ≡ N.table) × (opened.1.seat.me.0.parts ≡ 4096) × (opened.1.seat.me.0.author ≡ true) }
    requires seen { (opened.1.seat.me.0.seen ≡ opening_log) × (opened.1.seat.me.0.pages ≡ 16) }
{
    let (front, pass) = opened;
    let (bench, author, hand) = begin::<_, N>(front, pass);
    let (mut all, writer, reader) = match threads {
        1 => alone(rt, alloc, &bench, author, hand),
        2 => with_two(rt, alloc, &bench, author, hand),
        _ => with_four(rt, alloc, &bench, author, hand),
    };
    let front = all.front(&bench);
    let back = look_back(alloc, &bench, &mut all);
    let closed = close(bench, all)?;
    Some(Home {
        front,
        closed,
        writer,
        reader,
        back,
    })
}

/// Plays lines at a front of its own.
fn played<'a, R: Threads + Wait + Sync>(
    rt: &'a R,
    alloc: Global,
    gate: &'a Gate,
    lines: &[String],
) -> Result<(Vec<String>, Option<Closed<'a, R>>), NoMemory> {
    let opened = opened(rt, alloc, gate)?;
    Ok(play_lines::<Brand, R>(rt, alloc, gate, opened, lines)?)
}

/// Has so many threads run at a front of their own.
fn ran<'a, R: Threads + Wait + Sync>(
    rt: &'a R,
    alloc: Global,
    gate: &'a Gate,
    threads: u64,
) -> Result<Option<Home<'a, R>>, NoMemory> {
    let opened = opened(rt, alloc, gate)?;
    Ok(run::<Brand, R>(rt, alloc, opened, threads))
}

/// Plays the lines of a scenario, each with what it gave. The last one is how far each stripe came, and the log.
pub fn play<R: Threads + Wait + Sync>(
    rt: &R,
    alloc: Global,
    lines: &[String],
) -> Result<Vec<String>, NoMemory> {
    let gate = Gate::new();
    let (mut texts, closed) = played(rt, alloc, &gate, lines)?;
    let text = match closed {
        Some((stripes, log)) => {
            let mut text = format!(in alloc; "{} records, ends", log.records.len())?;
            for end in log.ends.as_slice() {
                text.push_str(format!(in alloc; " {end}")?.as_str())?;
            }
            text.push_str(format!(in alloc; ", {} stripes at", stripes.len())?.as_str())?;
            for stripe in stripes.as_slice() {
                text.push_str(format!(in alloc; " {}", stripe.applied())?.as_str())?;
            }
            text
        }
        None => format!(in alloc; "not closed")?,
    };
    texts.push(text)?;
    Ok(texts)
}

/// Whether two stripes came to the end and have the same page.
fn is_same<R: Wait>(one: &OnePage<R>, other: &OnePage<R>) -> bool {
    one.applied == END
        && other.applied == END
        && one.value.page == other.value.page
        && one.value.lsn == other.value.lsn
        && one.value.horizon == other.value.horizon
        && one.value.versions.as_slice() == other.value.versions.as_slice()
}

/// How many stripes of two runs are the same.
fn same_stripes<R: Wait>(stripes: &[OnePage<R>], others: &[OnePage<R>]) -> u64 {
    let mut same = 0u64;
    for (one, other) in stripes.iter().zip(others.iter()) {
        if is_same(one, other) {
            same = same.saturating_add(1);
        }
    }
    same
}

/// A session by the log: how many of its answers are wrong, and whether one of them is a row that is there.
fn session_text(alloc: Global, session: &Session, log: &Log) -> Result<String, AllocError> {
    let found = if session.is_any_found() {
        "rows"
    } else {
        "no row"
    };
    format!(in alloc; "{} wrong, {found} found", session.wrong(log))
}

/// Has so many threads run, and compares what they left with what one thread leaves.
pub fn compare<R: Threads + Wait + Sync>(
    rt: &R,
    alloc: Global,
    threads: u64,
) -> Result<Vec<String>, NoMemory> {
    let gate = Gate::new();
    let mut texts = Vec::new(alloc);
    let (Some(plain), Some(home)) = (ran(rt, alloc, &gate, 1)?, ran(rt, alloc, &gate, threads)?)
    else {
        return Ok(texts);
    };
    let (stripes, log) = &home.closed;
    texts.push(format!(in alloc;
        "front {}, {} stripes, {} records, {} blocks",
        home.front,
        stripes.len(),
        log.records.len(),
        log.ends.len()
    )?)?;
    let writer = session_text(alloc, &home.writer, log)?;
    texts.push(format!(in alloc; "writer: {writer}")?)?;
    if threads == 1 {
        texts.push(format!(in alloc; "writer: {} answers", home.writer.answers.len())?)?;
    }
    if let Some(reader) = &home.reader {
        let reader = session_text(alloc, reader, log)?;
        texts.push(format!(in alloc; "reader: {reader}")?)?;
    }
    let back = session_text(alloc, &home.back, log)?;
    texts.push(format!(in alloc; "older fronts: {} answers, {back}", home.back.answers.len())?)?;
    let same = same_stripes(stripes.as_slice(), plain.closed.0.as_slice());
    texts.push(format!(in alloc; "{same} stripes as on one thread")?)?;
    Ok(texts)
}
