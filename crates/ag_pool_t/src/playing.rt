//! Steps of a pool.
use crate::records;
use crate::texts::{frame_text, stripes_text, value_text};
use crate::words::{byte, number, numbers, page, word};
use ag_model::list::ListOf;
use ag_model::record::Record;
use ag_model::value::PageValue;
use ag_pool::{Held, Pool, PoolFault};
use std::alloc::{AllocError, Global};

/// A page with no version, at an LSN.
fn value(alloc: Global, page: u16, lsn: u64) -> PageValue {
    PageValue {
        page,
        lsn,
        horizon: 0,
        versions: ListOf::new(alloc),
    }
}

/// A pool of so many pages, where that can be.
fn made(alloc: Global, pages: u16, lsn: u64) -> Option<Pool> {
    if pages < 16 || pages > 2048 {
        return None;
    }
    Pool::new(alloc, pages, lsn).ok()
}

/// Plays a step on one page. The answer is false where the pool has no such page.
fn on_page(alloc: Global, pool: &mut Pool, step: &str, page: u16, lsn: u64) -> bool {
    if page < 16 || page >= 16 + pool.pages() {
        return false;
    }
    match step {
        "keep" => pool.keep(page, value(alloc, page, lsn)),
        "give_up" => pool.give_up(page),
        "forget" => pool.forget(page),
        "clean" => pool.clean(page),
        "pend" => pool.pend(page),
        "hold" => pool.hold(
            page,
            Held {
                lsn,
                value: value(alloc, page, lsn),
            },
        ),
        "come" => pool.come(page),
        "frame" => {}
        _ => return false,
    }
    true
}

/// Plays a step on all pages or on the stripes. The answer is false where there is no such step.
fn on_all(pool: &mut Pool, step: &str, first: u64, stripe: u8) -> bool {
    match step {
        "forget_all" => pool.forget_all(),
        "release" => pool.release(),
        "none_came" => pool.none_came(),
        "stand_all" => pool.stand_all(first),
        "lower" => pool.lower(first),
        "publish" if stripe < 16 => pool.publish(stripe),
        "stripes" => {}
        _ => return false,
    }
    true
}

/// Redoes a stripe through the records.
fn redo(
    alloc: Global,
    pool: &mut Pool,
    stripe: u8,
    records: &[Record],
) -> Result<String, AllocError> {
    if stripe >= 16
        || pool
            .applied(stripe)
            .checked_add(records.len() as u64)
            .is_none()
    {
        return format!(in alloc; "refused");
    }
    match pool.redo(stripe, records) {
        Ok(()) => { format!(in alloc; "{}/{}", pool.applied(stripe), pool.published(stripe)) }
        Err(PoolFault::Full { page }) => format!(in alloc; "full {page}"),
        Err(PoolFault::NoMemory) => format!(in alloc; "no memory"),
    }
}

/// Plays a step on a pool.
fn on_pool(
    alloc: Global,
    pool: &mut Pool,
    records: &[Record],
    line: &str,
) -> Result<String, AllocError> {
    let numbers = numbers(alloc, line)?;
    let numbers = numbers.as_slice();
    let step = word(line, 0);
    if step == "redo" {
        return redo(alloc, pool, byte(numbers, 0), records);
    }
    if step == "value" {
        return value_text(alloc, pool, page(numbers, 0));
    }
    if on_all(pool, step, number(numbers, 0), byte(numbers, 0)) {
        return stripes_text(alloc, pool);
    }
    let page = page(numbers, 0);
    if on_page(alloc, pool, step, page, number(numbers, 1)) {
        return frame_text(alloc, pool, page);
    }
    format!(in alloc; "refused")
}

/// Plays a step.
pub fn play(
    alloc: Global,
    held: &mut Option<Pool>,
    records: &mut Vec<Record>,
    line: &str,
) -> Result<String, AllocError> {
    let step = word(line, 0);
    let numbers = numbers(alloc, line)?;
    if records::play(alloc, records, step, numbers.as_slice())? {
        return format!(in alloc; "{} records", records.len());
    }
    if step == "new" {
        *held = made(
            alloc,
            page(numbers.as_slice(), 0),
            number(numbers.as_slice(), 1),
        );
        return match held {
            Some(pool) => stripes_text(alloc, pool),
            None => format!(in alloc; "refused"),
        };
    }
    match held {
        Some(pool) => on_pool(alloc, pool, records.as_slice(), line),
        None => format!(in alloc; "nothing"),
    }
}
