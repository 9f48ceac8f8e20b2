//! What one thread does at a front: it writes, redoes or reads.
use crate::answers::{Answer, Session};
use crate::blocks::Write;
use crate::hands::{Author, Bench, Hand, MOST, Naming};
use crate::step::{byte, narrow};
use ag_front::fault::FrontReadFault;
use ag_model::stands::Steps;
use std::alloc::Global;
use std::sync::Wait;
use std::thread;

/// The LSN at which the last of the transactions ends.
pub const END: u64 = 401;

/// How many keys there are, three a page.
const KEYS: u32 = 48;

/// How often a thread tries before it gives up. Its session has a fault then.
const TURNS: u64 = 20_000_000;

/// Reads a row at the front that is loaded, by one try, and remembers what is answered.
fn look<T: Steps, N: Naming>(
    bench: &Bench<T, N>,
    hand: &mut Hand<T, N>,
    session: &mut Session,
    key: u32,
) {
    let at = hand.front(bench);
    match hand.try_read(bench, key, at) {
        Some(Ok(row)) => session.remember(Answer { at, key, row }),
        Some(Err(FrontReadFault::Busy)) => {}
        _ => session.fail(),
    }
}

/// The same, but waits for the stripe.
fn wait_and_look<T: Steps, N: Naming, R: Wait>(
    rt: &R,
    bench: &Bench<T, N>,
    hand: &mut Hand<T, N>,
    session: &mut Session,
    key: u32,
) {
    match hand.read(rt, bench, key) {
        Ok((at, row)) => session.remember(Answer { at, key, row }),
        Err(_) => session.fail(),
    }
}

/// Reads three keys, of which the turn picks the first, in both ways.
fn look_around<T: Steps, N: Naming, R: Wait>(
    rt: &R,
    bench: &Bench<T, N>,
    hand: &mut Hand<T, N>,
    session: &mut Session,
    turn: u64,
) {
    for step in 0..3 {
        let key = ((turn % 48) as u32 + 5 * step) % KEYS;
        wait_and_look(rt, bench, hand, session, key);
        look(bench, hand, session, key);
    }
}

/// One turn at each stripe: it is brought through the block after what the pass knows applied, if there is one and nobody has the
/// stripe, and its word is raised. The least of the words then.
pub fn redo_turn<T: Steps, N: Naming, R: Wait>(
    rt: &R,
    bench: &Bench<T, N>,
    hand: &mut Hand<T, N>,
) -> u64 {
    let mut low = END;
    for stripe in 0..16 {
        let _ = hand.apply(rt, bench, stripe);
        low = low.min(hand.raise(bench, stripe).unwrap_or(0));
    }
    low
}

/// A worker: it redoes every stripe until all are published at the end.
pub fn work<T: Steps, N: Naming, R: Wait>(
    rt: &R,
    bench: &Bench<T, N>,
    mut hand: Hand<T, N>,
) -> Hand<T, N> {
    let mut last = 0;
    for _ in 0..TURNS {
        let low = redo_turn(rt, bench, &mut hand);
        if low >= END {
            break;
        }
        // Only where there was nothing to do: on a busy processor a yield costs more than many turns.
        if low == last {
            thread::yield_now();
        }
        last = low;
    }
    hand
}

/// A reader: it reads whenever the front has moved, until that is at the end.
pub fn watch<T: Steps, N: Naming, R: Wait>(
    rt: &R,
    alloc: Global,
    bench: &Bench<T, N>,
    mut hand: Hand<T, N>,
) -> (Hand<T, N>, Session) {
    let mut session = Session::new(alloc);
    let mut last = 0;
    for turn in 0..TURNS {
        let at = hand.front(bench);
        if at > last {
            look_around(rt, bench, &mut hand, &mut session, turn);
            last = at;
        }
        if at >= END {
            break;
        }
        thread::yield_now();
    }
    (hand, session)
}

/// Waits until the front is at an LSN, and redoes meanwhile where nobody else does. Whether it came there.
fn wait_for<T: Steps, N: Naming, R: Wait>(
    rt: &R,
    bench: &Bench<T, N>,
    hand: &mut Hand<T, N>,
    at: u64,
    is_alone: bool,
) -> bool {
    for _ in 0..TURNS {
        if hand.front(bench) >= at {
            return true;
        }
        if is_alone {
            redo_turn(rt, bench, hand);
        } else {
            thread::yield_now();
        }
    }
    false
}

/// Reads every key at every tenth front that there was, once the other threads have ended.
pub fn look_back<T: Steps, N: Naming>(
    alloc: Global,
    bench: &Bench<T, N>,
    hand: &mut Hand<T, N>,
) -> Session {
    let mut session = Session::new(alloc);
    for step in 0..21 {
        let at = 20 * step + 1;
        for key in 0..KEYS {
            match hand.try_read(bench, key, at) {
                Some(Ok(row)) => session.remember(Answer { at, key, row }),
                _ => session.fail(),
            }
        }
    }
    session
}

/// What a transaction of this number puts.
fn write_of(txn: u64) -> Write {
    Write {
        key: narrow(txn.wrapping_mul(7) % 48),
        value: [byte(txn / 16), byte(txn % 16)],
    }
}

/// The writer: it dispatches all transactions with its first pass, and reads with the other one. Every tenth block it waits until all
/// are redone. The pass that it ends with has the parts of both.
pub fn write<T: Steps, N: Naming, R: Wait>(
    rt: &R,
    alloc: Global,
    bench: &Bench<T, N>,
    mut author: Author<T, N>,
    mut reader: Hand<T, N>,
    is_alone: bool,
) -> (Hand<T, N>, Session) {
    let mut session = Session::new(alloc);
    for done in 0..MOST {
        let end = author.put(rt, alloc, bench, 2 * done + 2, &write_of(done + 1));
        if end != Some(Ok(2 * done + 3)) {
            session.fail();
        }
        if done % 10 == 9 && !wait_for(rt, bench, &mut reader, 2 * done + 3, is_alone) {
            session.fail();
        }
        look_around(rt, bench, &mut reader, &mut session, done);
    }
    let mut all = author.into_hand();
    all.join(bench, reader);
    (all, session)
}
