//! Steps of a replica.
use crate::replica::{Down, Replica, Up};
use crate::words::{from_place, number, numbers, short, suffix_of, word};
use ag_kept::{KeptFault, Reach, how_far};
use ag_model::event::Suffix;
use ag_outside::mem_disk::MemDisk;
use std::alloc::{AllocError, Global};
use std::mem;

/// The replica of a script. After a fault there is none.
#[derive(Drop)]
pub enum Held {
    Nothing,
    Up(Up<MemDisk>),
    Down(Down<MemDisk>),
}

impl Held {
    fn of(replica: Replica<MemDisk>) -> Held {
        match replica {
            Replica::Up(up) => Held::Up(up),
            Replica::Down(down) => Held::Down(down),
        }
    }
}

/// Opens a replica of this number with so many pages, whose disk fails at the calls of the further numbers.
fn opened(alloc: Global, numbers: &[u64]) -> Result<Result<Up<MemDisk>, KeptFault>, AllocError> {
    let disk = MemDisk::new(alloc, from_place(alloc, numbers, 2)?, false);
    let pages = (number(numbers, 0) % 65_536) as u16;
    let replica = (number(numbers, 1) % 256) as u8;
    Ok(Up::opened(alloc, disk, pages, replica))
}

/// Plays a step on a replica that is up.
fn on_up(
    alloc: Global,
    up: Up<MemDisk>,
    line: &str,
    numbers: &[u64],
) -> Result<(String, Held), AllocError> {
    match word(line, 0) {
        "end" => {
            let end = up.end();
            Ok((format!(in alloc; "{end}")?, Held::Up(up)))
        }
        "fall" => Ok((format!(in alloc; "down")?, Held::Down(up.fallen()))),
        "harden" => {
            let suffix = suffix_of(word(line, 2), numbers, 1);
            match up.harden(alloc, number(numbers, 0), &suffix) {
                Ok((reach, replica)) => Ok((format!(in alloc; "{reach:?}")?, Held::of(replica))),
                Err(e) => Ok((format!(in alloc; "{e:?}")?, Held::Nothing)),
            }
        }
        _ => Ok((format!(in alloc; "it is up")?, Held::Up(up))),
    }
}

/// Plays a step on a replica that is down.
fn on_down(
    alloc: Global,
    down: Down<MemDisk>,
    line: &str,
    numbers: &[u64],
) -> Result<(String, Held), AllocError> {
    match word(line, 0) {
        "master" => match down.master() {
            Ok((m, down)) => {
                let text = format!(in alloc;
                    "replica {} incarnation {} redo {}",
                    m.replica, m.incarnation, m.redo
                )?;
                Ok((text, Held::Down(down)))
            }
            Err(e) => Ok((format!(in alloc; "{e:?}")?, Held::Nothing)),
        },
        "save_redo_start" => match down.with_redo_start(number(numbers, 0)) {
            Ok(down) => Ok((format!(in alloc; "saved")?, Held::Down(down))),
            Err(e) => Ok((format!(in alloc; "{e:?}")?, Held::Nothing)),
        },
        "start" => match down.started(alloc, &suffix_of(word(line, 1), numbers, 0)) {
            Ok((reach, n, replica)) => Ok((
                format!(in alloc; "{reach:?} after {n}")?,
                Held::of(replica),
            )),
            Err(e) => Ok((format!(in alloc; "{e:?}")?, Held::Nothing)),
        },
        _ => Ok((format!(in alloc; "it is down")?, Held::Down(down))),
    }
}

/// How far a write comes, of so many sectors in so many calls.
fn reach_of(line: &str, numbers: &[u64]) -> Reach {
    let suffix = suffix_of(word(line, 3), numbers, 2);
    how_far(&suffix, number(numbers, 0), short(numbers, 1))
}

/// Plays a step.
pub fn play(alloc: Global, held: &mut Held, line: &str) -> Result<String, AllocError> {
    let numbers = numbers(alloc, line)?;
    let numbers = numbers.as_slice();
    if word(line, 0) == "how_far" {
        return format!(in alloc; "{:?}", reach_of(line, numbers));
    }
    let (text, now) = match mem::replace(held, Held::Nothing) {
        _ if word(line, 0) == "open" => match opened(alloc, numbers)? {
            Ok(up) => (format!(in alloc; "up")?, Held::Up(up)),
            Err(e) => (format!(in alloc; "{e:?}")?, Held::Nothing),
        },
        Held::Nothing => (format!(in alloc; "no replica")?, Held::Nothing),
        Held::Up(up) => on_up(alloc, up, line, numbers)?,
        Held::Down(down) => on_down(alloc, down, line, numbers)?,
    };
    *held = now;
    Ok(text)
}
