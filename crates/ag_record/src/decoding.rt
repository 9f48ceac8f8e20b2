//! Records from bytes.
ghost use Rattle.std.specs.Prelude.{◌≡◌, ◌≤◌, ◌++◌, ℕ, List, length, drop, IfOk};
ghost use Rattle.ag_model.specs.declared.record.Record.TheVariants.{Commit, Abort};
ghost use Rattle.ag_model.specs.Sizes.{record_size};
ghost use Rattle.ag_record.specs.Spelling.{spelling, HasSpelling};
ghost use Rattle.ag_record.specs.Reading.{Gives, Answers, value_of, value_at, is_page, pages_at, list_at, put_at, del_at, ending_at, trim_at, term_at, record_at, reading};

use crate::fault::RecordFault;
use crate::numbers::{u16_at, u32_at, u64_at};
use ag_model::record::{PageList, Record};
use ag_model::value::Value;
use std::alloc::Global;

/// Whether a page has this number.
fn is_page(page: u16) -> bool
    ensures { result ≡ is_page page }
{
    (16..=2063).contains(&page)
}

/// The value of these bytes.
fn padded(text: &[u8]) -> Value
    requires { length text.now ≤ 64 }
    ensures { result ≡ value_of text.now }
{
    let len = text.len();
    let mut bytes = [0; 64];
    bytes[..len].copy_from_slice(text);
    Value {
        len: len as u8,
        bytes,
    }
}

#[tactic(auto, unfolding(crate::specs::Reading::value_at))]
fn value_in(b: &[u8]) -> Result<(Value, &[u8]), RecordFault>
    ensures { Gives (λ x. (x.0, x.1.now)) result (value_at b.now) }
{
    let (len, rest) = u16_at(b, RecordFault::Short)?;
    if len > 64 {
        return Err(RecordFault::BadLength);
    }
    let count = usize::from(len);
    if rest.len() < count {
        return Err(RecordFault::Short);
    }
    let (text, rest) = rest.split_at(count);
    Ok((padded(text), rest))
}

fn pages_of(alloc: Global, count: usize, b: &[u8]) -> Result<(Vec<u16>, &[u8]), RecordFault>
    ensures { Gives (λ x. (x.0.items, x.1.now)) result (pages_at 0 count b.now) }
{
    let mut pages = Vec::with_capacity(alloc, count)?;
    let mut low = 0;
    let mut rest = b;
    for _ in 0..count {
        let (page, after) = u16_at(rest, RecordFault::Short)?;
        if !is_page(page) {
            return Err(RecordFault::BadPage);
        }
        if page <= low {
            return Err(RecordFault::BadOrder);
        }
        pages.push(page)?;
        low = page;
        rest = after;
    }
    Ok((pages, rest))
}

#[tactic(auto, unfolding(crate::specs::Reading::list_at))]
fn list_of(alloc: Global, b: &[u8]) -> Result<(PageList, &[u8]), RecordFault>
    ensures { Gives (λ x. (x.0, x.1.now)) result (list_at b.now) }
{
    let (count, rest) = u16_at(b, RecordFault::Short)?;
    if count < 1 || count > 2048 {
        return Err(RecordFault::BadLength);
    }
    let count = usize::from(count);
    if rest.len() < 2 * count {
        return Err(RecordFault::Short);
    }
    let (pages, rest) = pages_of(alloc, count, rest)?;
    Ok((PageList::from_vec(pages), rest))
}

#[tactic(auto, unfolding(crate::specs::Reading::put_at))]
fn put_of(b: &[u8]) -> Result<(Record, &[u8]), RecordFault>
    ensures { Gives (λ x. (x.0, x.1.now)) result (put_at b.now) }
{
    let (txn, rest) = u64_at(b, RecordFault::Short)?;
    let (key, rest) = u32_at(rest, RecordFault::Short)?;
    let (value, rest) = value_in(rest)?;
    Ok((Record::Put { txn, key, value }, rest))
}

#[tactic(auto, unfolding(crate::specs::Reading::del_at))]
fn del_of(b: &[u8]) -> Result<(Record, &[u8]), RecordFault>
    ensures { Gives (λ x. (x.0, x.1.now)) result (del_at b.now) }
{
    let (txn, rest) = u64_at(b, RecordFault::Short)?;
    let (key, rest) = u32_at(rest, RecordFault::Short)?;
    Ok((Record::Del { txn, key }, rest))
}

#[tactic(auto, unfolding(crate::specs::Reading::ending_at))]
fn commit_of(alloc: Global, b: &[u8]) -> Result<(Record, &[u8]), RecordFault>
    ensures { Gives (λ x. (x.0, x.1.now)) result (ending_at Commit b.now) }
{
    let (txn, rest) = u64_at(b, RecordFault::Short)?;
    let (pages, rest) = list_of(alloc, rest)?;
    Ok((Record::Commit { txn, pages }, rest))
}

#[tactic(auto, unfolding(crate::specs::Reading::ending_at))]
fn abort_of(alloc: Global, b: &[u8]) -> Result<(Record, &[u8]), RecordFault>
    ensures { Gives (λ x. (x.0, x.1.now)) result (ending_at Abort b.now) }
{
    let (txn, rest) = u64_at(b, RecordFault::Short)?;
    let (pages, rest) = list_of(alloc, rest)?;
    Ok((Record::Abort { txn, pages }, rest))
}

#[tactic(auto, unfolding(crate::specs::Reading::trim_at))]
fn trim_of(b: &[u8]) -> Result<(Record, &[u8]), RecordFault>
    ensures { Gives (λ x. (x.0, x.1.now)) result (trim_at b.now) }
{
    let (page, rest) = u16_at(b, RecordFault::Short)?;
    let (horizon, rest) = u64_at(rest, RecordFault::Short)?;
    if !is_page(page) {
        return Err(RecordFault::BadPage);
    }
    Ok((Record::Trim { page, horizon }, rest))
}

#[tactic(auto, unfolding(crate::specs::Reading::term_at))]
fn term_of(b: &[u8]) -> Result<(Record, &[u8]), RecordFault>
    ensures { Gives (λ x. (x.0, x.1.now)) result (term_at b.now) }
{
    let (term, rest) = u64_at(b, RecordFault::Short)?;
    Ok((Record::Term { term }, rest))
}

#[tactic(auto, unfolding(crate::specs::Reading::record_at, crate::specs::Reading::fields_at))]
fn record_of(alloc: Global, b: &[u8]) -> Result<(Record, &[u8]), RecordFault>
    ensures { Gives (λ x. (x.0, x.1.now)) result (record_at b.now) }
{
    let [kind, rest @ ..] = b else {
        return Err(RecordFault::Short);
    };
    match kind {
        1 => put_of(rest),
        2 => del_of(rest),
        3 => commit_of(alloc, rest),
        4 => abort_of(alloc, rest),
        5 => trim_of(rest),
        6 => term_of(rest),
        _ => Err(RecordFault::BadKind),
    }
}

fn read(alloc: Global, b: &[u8]) -> Result<(Record, usize), RecordFault>
    ensures { Answers result (reading b.now) }
{
    let (record, rest) = record_of(alloc, b)?;
    Ok((record, b.len() - rest.len()))
}

/// The record that the bytes begin with, and how many bytes it takes.
pub fn decode(alloc: Global, b: &[u8]) -> Result<(Record, usize), RecordFault>
    // What is read is spelled so.
    ensures fits { IfOk result (λ x. HasSpelling x.0) }
    ensures spelled { IfOk result (λ x. b.now ≡ spelling x.0 ++ drop x.1 b.now) }
    ensures size { IfOk result (λ x. x.1 ≡ record_size x.0) }

    // What is spelled so is read, unless memory runs out, whatever follows it.
    ensures only { (r : Record) (rest : List ℕ) → HasSpelling r → b.now ≡ spelling r ++ rest → Answers result (Ok (r, record_size r)) }

    // Which fault it is.
    ensures exact { Answers result (reading b.now) }
{
    read(alloc, b)
}
