//! The fields of messages from bytes.
ghost use Rattle.std.specs.Prelude.{None};
ghost use Rattle.ag_wire.specs.Reading.{Gives, Answers, ticket_at, above_at, start_at, starts_at, records_in, payload_at};

use crate::fault::WireFault;
use ag_model::config::{TermList, TermStart, Ticket};
use ag_model::record::RecordList;
use ag_record::{decode_all, u16_at, u32_at, u64_at};
use std::alloc::Global;

#[tactic(auto, unfolding(crate::specs::Reading::ticket_at))]
pub(crate) fn ticket_of(b: &[u8]) -> Result<(Ticket, &[u8]), WireFault>
    ensures { Gives (λ x. (x.0, x.1.now)) result (ticket_at b.now) }
{
    let (incarnation, rest) = u64_at(b, WireFault::Short)?;
    let (joins, rest) = u32_at(rest, WireFault::Short)?;
    Ok((Ticket { incarnation, joins }, rest))
}

#[tactic(auto, unfolding(crate::specs::Reading::above_at))]
fn above_of(low: Option<u64>, b: &[u8]) -> Result<(u64, &[u8]), WireFault>
    ensures { Gives (λ x. (x.0, x.1.now)) result (above_at low b.now) }
{
    let (number, rest) = u64_at(b, WireFault::Short)?;
    match low {
        Some(low) if number <= low => Err(WireFault::BadOrder),
        _ => Ok((number, rest)),
    }
}

#[tactic(auto, unfolding(crate::specs::Reading::start_at))]
fn start_of(last: Option<TermStart>, b: &[u8]) -> Result<(TermStart, &[u8]), WireFault>
    ensures { Gives (λ x. (x.0, x.1.now)) result (start_at last b.now) }
{
    let (term, rest) = above_of(last.map(|last| last.term), b)?;
    let (lsn, rest) = above_of(last.map(|last| last.lsn), rest)?;
    Ok((TermStart { term, lsn }, rest))
}

/// So many term starts. The count is not trusted: no more memory is taken than for the bytes that are there.
pub(crate) fn starts_of(alloc: Global, count: u32, b: &[u8]) -> Result<(TermList, &[u8]), WireFault>
    ensures { Gives (λ x. (x.0, x.1.now)) result (starts_at None count b.now) }
{
    let room = (count as usize).min(b.len() / 16);
    let mut starts = Vec::with_capacity(alloc, room)?;
    let mut last = None;
    let mut rest = b;
    for _ in 0..count {
        let (start, after) = start_of(last, rest)?;
        starts.push(start)?;
        last = Some(start);
        rest = after;
    }
    Ok((TermList::from_vec(starts), rest))
}

fn records_of(alloc: Global, b: &[u8]) -> Result<RecordList, WireFault>
    ensures { Answers result (records_in b.now) }
{
    let records = decode_all(alloc, b)?;
    Ok(records)
}

#[tactic(auto, unfolding(crate::specs::Reading::payload_at))]
pub(crate) fn payload_of(alloc: Global, b: &[u8]) -> Result<(RecordList, &[u8]), WireFault>
    ensures { Gives (λ x. (x.0, x.1.now)) result (payload_at b.now) }
{
    let (len, rest) = u16_at(b, WireFault::Short)?;
    if len < 1 || len > 15_488 {
        return Err(WireFault::BadLength);
    }
    let len = usize::from(len);
    if rest.len() < len {
        return Err(WireFault::Short);
    }
    let (payload, rest) = rest.split_at(len);
    let records = records_of(alloc, payload)?;
    Ok((records, rest))
}
