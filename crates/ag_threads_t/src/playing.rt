//! Plays the steps of a line at a front, and says what each gave.
use crate::blocks::Write;
use crate::gate::Gate;
use crate::hands::{Author, Bench, Hand, Naming};
use crate::step::{Step, steps_of};
use crate::{texts, turns};
use ag_front::fault::FrontReadFault;
use ag_model::stands::Steps;
use ag_model::value::Row;
use std::alloc::{AllocError, Global};
use std::sync::Wait;
use std::thread::{Threads, join};

/// The passes at a front: the author, the one that steps are played with, and the one that it was split off.
#[derive(Drop)]
pub struct Players<T: Steps, N: Naming> {
    pub author: Option<Author<T, N>>,
    pub hand: Hand<T, N>,
    pub aside: Option<Hand<T, N>>,
}

impl<T: Steps, N: Naming> Players<T, N> {
    /// One pass of all.
    pub fn joined(self, bench: &Bench<T, N>) -> Hand<T, N> {
        let Players {
            author,
            mut hand,
            aside,
        } = self;
        if let Some(author) = author {
            hand.join(bench, author.into_hand());
        }
        if let Some(other) = aside {
            hand.join(bench, other);
        }
        hand
    }

    /// Dispatches the next transaction, with the author.
    fn put<R: Wait>(
        &mut self,
        rt: &R,
        alloc: Global,
        bench: &Bench<T, N>,
        first: u64,
        write: &Write,
    ) -> Result<String, AllocError> {
        match &mut self.author {
            Some(author) => {
                let end = author.put(rt, alloc, bench, first, write);
                format!(in alloc; "{end:?}")
            }
            None => format!(in alloc; "no author"),
        }
    }

    /// Dispatches the block with a Trim. There is no author then.
    fn trim<R: Wait>(
        &mut self,
        rt: &R,
        alloc: Global,
        bench: &Bench<T, N>,
    ) -> Result<String, AllocError> {
        match self.author.take() {
            Some(author) => {
                let (end, hand) = author.trim(rt, alloc, bench);
                self.hand.join(bench, hand);
                format!(in alloc; "{end:?}")
            }
            None => format!(in alloc; "no author"),
        }
    }

    /// Splits a pass off, for the next steps.
    fn split(
        &mut self,
        alloc: Global,
        bench: &Bench<T, N>,
        parts: u32,
    ) -> Result<String, AllocError> {
        let part = self.hand.split(bench, parts);
        match part {
            Some(part) if self.aside.is_none() => {
                let whole = std::mem::replace(&mut self.hand, part);
                self.aside = Some(whole);
                format!(in alloc; "split")
            }
            _ => format!(in alloc; "no split"),
        }
    }

    /// Joins it again.
    fn join(&mut self, alloc: Global, bench: &Bench<T, N>) -> Result<String, AllocError> {
        match self.aside.take() {
            Some(other) => {
                self.hand.join(bench, other);
                format!(in alloc; "joined")
            }
            None => format!(in alloc; "no join"),
        }
    }
}

/// Plays a step with a pass.
fn with_hand<T: Steps, N: Naming, R: Wait>(
    rt: &R,
    alloc: Global,
    bench: &Bench<T, N>,
    hand: &mut Hand<T, N>,
    step: Step,
) -> Result<String, AllocError> {
    match step {
        Step::Front => format!(in alloc; "{}", hand.front(bench)),
        Step::Read { key } => texts::read(alloc, &hand.read(rt, bench, key)),
        Step::Try { key } => {
            let at = hand.front(bench);
            texts::tried(alloc, &hand.try_read(bench, key, at))
        }
        Step::At { key, lsn } => texts::tried(alloc, &hand.try_read(bench, key, lsn)),
        Step::Fetch { stripe } => texts::fetched(alloc, &hand.fetch(rt, bench, stripe)),
        Step::Apply { stripe } => format!(in alloc; "{:?}", hand.apply(rt, bench, stripe)),
        Step::Raise { stripe } => format!(in alloc; "{:?}", hand.raise(bench, stripe)),
        Step::Turn => format!(in alloc; "{}", turns::redo_turn(rt, bench, hand)),
        _ => format!(in alloc; "no step"),
    }
}

/// Plays a step.
fn play<T: Steps, N: Naming, R: Wait>(
    rt: &R,
    alloc: Global,
    bench: &Bench<T, N>,
    players: &mut Players<T, N>,
    step: Step,
) -> Result<String, AllocError> {
    match step {
        Step::Put { first, key, byte } => {
            let write = Write {
                key,
                value: [byte, byte],
            };
            players.put(rt, alloc, bench, first, &write)
        }
        Step::Trim => players.trim(rt, alloc, bench),
        Step::Split { parts } => players.split(alloc, bench, parts),
        Step::Join => players.join(alloc, bench),
        _ => with_hand(rt, alloc, bench, &mut players.hand, step),
    }
}

/// Plays steps with a pass while another thread waits at the gate with a stripe, and lets that thread go on.
fn play_beside<T: Steps, N: Naming, R: Wait>(
    rt: &R,
    alloc: Global,
    gate: &Gate,
    bench: &Bench<T, N>,
    mut hand: Hand<T, N>,
    steps: &[Step],
) -> (Hand<T, N>, Result<String, AllocError>) {
    gate.wait_until_reached(rt);
    let text = play_with_hand(rt, alloc, bench, &mut hand, steps);
    gate.open();
    (hand, text)
}

/// Plays steps with a pass.
fn play_with_hand<T: Steps, N: Naming, R: Wait>(
    rt: &R,
    alloc: Global,
    bench: &Bench<T, N>,
    hand: &mut Hand<T, N>,
    steps: &[Step],
) -> Result<String, AllocError> {
    let mut text = String::new(alloc);
    for step in steps {
        let said = with_hand(rt, alloc, bench, hand, *step)?;
        text.push_str(said.as_str())?;
        text.push_str("; ")?;
    }
    Ok(text)
}

/// Reads a key by one try, and comes back with what was answered.
fn read_behind<T: Steps, N: Naming>(
    bench: &Bench<T, N>,
    mut hand: Hand<T, N>,
    key: u32,
) -> (Hand<T, N>, Option<Result<Row, FrontReadFault>>) {
    let at = hand.front(bench);
    let answer = hand.try_read(bench, key, at);
    (hand, answer)
}

/// Plays steps while another thread reads a key, and waits at the gate with the key's stripe.
fn play_held<T: Steps + Send, N: Naming + Send + Sync, R: Threads + Wait + Sync>(
    rt: &R,
    alloc: Global,
    gate: &Gate,
    bench: &Bench<T, N>,
    players: &mut Players<T, N>,
    key: u32,
    steps: &[Step],
) -> Result<String, AllocError> {
    let holder = players.hand.split(bench, 1);
    let other = players.hand.split(bench, 1);
    let (Some(holder), Some(other)) = (holder, other) else {
        return format!(in alloc; "no part");
    };
    gate.shut();
    let (beside, behind) = join(
        rt,
        move || play_beside(rt, alloc, gate, bench, other, steps),
        move || read_behind(bench, holder, key),
    );
    let (other, text) = beside;
    let (holder, answer) = behind;
    players.hand.join(bench, other);
    players.hand.join(bench, holder);
    let text = text?;
    let answer = texts::tried(alloc, &answer)?;
    format!(in alloc; "{text}{answer}")
}

/// Plays a line.
pub fn play_line<T: Steps + Send, N: Naming + Send + Sync, R: Threads + Wait + Sync>(
    rt: &R,
    alloc: Global,
    gate: &Gate,
    bench: &Bench<T, N>,
    players: &mut Players<T, N>,
    line: &str,
) -> Result<String, AllocError> {
    let steps = steps_of(alloc, line)?;
    if let Some((Step::Held { key }, rest)) = steps.as_slice().split_first() {
        return play_held(rt, alloc, gate, bench, players, *key, rest);
    }
    let mut text = String::new(alloc);
    for (i, step) in steps.as_slice().iter().enumerate() {
        if i > 0 {
            text.push_str("; ")?;
        }
        let said = play(rt, alloc, bench, players, *step)?;
        text.push_str(said.as_str())?;
    }
    Ok(text)
}
