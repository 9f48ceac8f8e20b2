//! What a line has played.
ghost use Rattle.std.specs.Prelude.{◌≤◌, length};

use crate::home::RowHome;
use crate::plans::{RowPlan, mixed, plan};
use crate::texts::{said_answer, said_reach, said_rows};
use crate::words::{next_number, next_suffix, next_word};
use ag_model::answer::Answer;
use ag_model::event::Suffix;
use ag_writes::{Keeps, Reach, answer_with, order_of, perform};
use std::alloc::{AllocError, Global};
use std::str::SplitWhitespace;

/// Performs all batches by one call.
fn perform_once(home: &mut RowHome, plan: &RowPlan, suffix: &Suffix) -> Result<Reach, AllocError> {
    home.begin(suffix);
    perform(home, plan.batches.as_slice())
}

/// Performs the first so many batches by one call, and the rest by another call of the same event.
fn perform_in_parts(
    home: &mut RowHome,
    plan: &RowPlan,
    first: usize,
    suffix: &Suffix,
) -> Result<Reach, AllocError>
    requires { first ≤ length plan.now.batches.items }
{
    home.begin(suffix);
    let (first, rest) = plan.batches.as_slice().split_at(first);
    match perform(home, first)? {
        Reach::End => perform(home, rest),
        end => Ok(end),
    }
}

/// How far an event of node B came, its answer, which is `bad` where it goes through, and the rows that stand then.
fn outcome(alloc: Global, home: &RowHome, reach: Reach) -> Result<String, AllocError> {
    let came = said_reach(alloc, &reach)?;
    let answer = said_answer(alloc, &answer_with(Answer::PageBad, 1, reach))?;
    let rows = said_rows(alloc, home.rows())?;
    format!(in alloc; "{came}; {answer}; {rows}")
}

/// A plan that is performed by one call.
fn once(alloc: Global, words: &mut SplitWhitespace<'_>) -> Result<String, AllocError> {
    let Some(plan) = plan(alloc, next_word(words))? else {
        return format!(in alloc; "no such plan");
    };
    let suffix = next_suffix(words);
    let mut home = RowHome::new(alloc);
    let reach = perform_once(&mut home, &plan, &suffix)?;
    outcome(alloc, &home, reach)
}

/// A plan that is performed by two calls, the first of so many batches.
fn parts(alloc: Global, words: &mut SplitWhitespace<'_>) -> Result<String, AllocError> {
    let first = next_number(words) as usize;
    let Some(plan) = plan(alloc, next_word(words))? else {
        return format!(in alloc; "no such plan");
    };
    if first > plan.batches.len() {
        return format!(in alloc; "no such part");
    }
    let suffix = next_suffix(words);
    let mut home = RowHome::new(alloc);
    let reach = perform_in_parts(&mut home, &plan, first, &suffix)?;
    outcome(alloc, &home, reach)
}

/// What is still ordered of an event once so many writes and their sync went through.
fn nearer(alloc: Global, words: &mut SplitWhitespace<'_>) -> Result<String, AllocError> {
    let writes = next_number(words);
    let order = order_of(&next_suffix(words));
    let left = order.nearer(writes);
    format!(in alloc; "{order:?}, then {left:?}")
}

/// Which writes of a batch with one of each kind are steps, and how many.
fn steps(alloc: Global) -> Result<String, AllocError> {
    let batch = mixed(alloc)?;
    let mut are = Vec::new(alloc);
    for write in batch.as_slice() {
        are.push(write.is_step())?;
    }
    let steps = batch.steps();
    format!(in alloc; "{are:?}, {steps}")
}

/// What a line gives.
pub fn play(alloc: Global, line: &str) -> Result<String, AllocError> {
    let mut words = line.split_whitespace();
    match next_word(&mut words) {
        "once" => once(alloc, &mut words),
        "parts" => parts(alloc, &mut words),
        "nearer" => nearer(alloc, &mut words),
        "steps" => steps(alloc),
        _ => format!(in alloc; "no such line"),
    }
}
