//! Steps of a replica's data.
use crate::held::{self, Gave, Held};
use crate::texts::{log_text, look_text, master_text, progress_text, rows_text};
use crate::words::{byte, number, numbers, page, place, word};
use ag_durable::Durable;
use ag_model::event::Suffix;
use ag_outside::mem_disk::MemDisk;
use std::alloc::{AllocError, Global};

/// The suffix of an event that begins.
fn suffix_of(kind: &str, numbers: &[u64]) -> Suffix {
    match kind {
        "stop" => Suffix::Stop {
            write: place(numbers, 0),
            mask: number(numbers, 1),
        },
        "fail" => Suffix::Fail {
            call: place(numbers, 0),
        },
        _ => Suffix::Whole,
    }
}

/// What a call gave, and how far the event has come.
fn told(alloc: Global, kept: &Durable<MemDisk>, gave: Gave) -> Result<String, AllocError> {
    match gave {
        None => format!(in alloc; "refused"),
        Some(Ok(())) => progress_text(alloc, kept),
        Some(Err(e)) => format!(in alloc; "{e:?}"),
    }
}

/// Plays a step that writes, or reads what memory has.
fn on_data(
    alloc: Global,
    kept: &mut Durable<MemDisk>,
    line: &str,
    numbers: &[u64],
) -> Result<String, AllocError> {
    let gave = match word(line, 0) {
        "begin" => {
            let suffix = suffix_of(word(line, 1), numbers);
            return format!(in alloc; "{}", held::begin(alloc, kept, &suffix));
        }
        "reach" => return format!(in alloc; "{:?}", held::reach(alloc, kept)),
        "look" => {
            return match held::look(kept, page(numbers, 0)) {
                None => format!(in alloc; "refused"),
                Some(Ok(look)) => look_text(alloc, &look),
                Some(Err(e)) => format!(in alloc; "{e:?}"),
            };
        }
        "progress" => return progress_text(alloc, kept),
        "log" => return log_text(alloc, kept),
        "master" => return master_text(alloc, kept),
        "rows" => return rows_text(alloc, kept),
        "start" => held::append_start(alloc, kept, number(numbers, 0)),
        "puts" => held::append_puts(alloc, kept, number(numbers, 0)),
        "save" => held::save(
            kept,
            number(numbers, 0),
            number(numbers, 1),
            number(numbers, 2),
        ),
        "cut" => held::cut(kept, number(numbers, 0), number(numbers, 1)),
        "note" => held::note(kept, page(numbers, 0), byte(numbers, 1)),
        "mark" => held::mark(kept, page(numbers, 0)),
        "sync" => held::sync(kept),
        "pages" => held::write_two(kept, page(numbers, 0), page(numbers, 1), byte(numbers, 2)),
        _ => return format!(in alloc; "no step"),
    };
    told(alloc, kept, gave)
}

/// Plays a step.
pub fn play(alloc: Global, held: &mut Held, line: &str) -> Result<String, AllocError> {
    let numbers = numbers(alloc, line)?;
    let numbers = numbers.as_slice();
    match word(line, 0) {
        "format" => {
            *held = held::formatted(alloc, page(numbers, 0), byte(numbers, 1));
            match held {
                Held::Nothing => format!(in alloc; "refused"),
                Held::Data(kept) => progress_text(alloc, kept),
            }
        }
        "reload" => match std::mem::replace(held, Held::Nothing) {
            Held::Nothing => format!(in alloc; "nothing"),
            Held::Data(kept) => {
                *held = held::reloaded(alloc, kept);
                match held {
                    Held::Nothing => format!(in alloc; "refused"),
                    Held::Data(kept) => progress_text(alloc, kept),
                }
            }
        },
        _ => match held {
            Held::Nothing => format!(in alloc; "nothing"),
            Held::Data(kept) => on_data(alloc, kept, line, numbers),
        },
    }
}
