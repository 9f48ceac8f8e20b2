//! Messages from bytes.
ghost use Rattle.std.specs.Prelude.{◌≡◌, Ok, IfOk};
ghost use Rattle.ag_model.specs.declared.message.Message.{Message};
ghost use Rattle.ag_wire.specs.Spelling.{spelling, HasSpelling};
ghost use Rattle.ag_wire.specs.Reading.{Gives, Answers, hello_at, resume_at, block_at, ack_at, message_at, reading};

use crate::fault::WireFault;
use crate::fields::{payload_of, starts_of, ticket_of};
use ag_model::message::{Block, Body, Message};
use ag_record::{u32_at, u64_at};
use std::alloc::Global;

#[tactic(auto, unfolding(crate::specs::Reading::hello_at))]
fn hello_of(alloc: Global, b: &[u8]) -> Result<(Message, &[u8]), WireFault>
    ensures { Gives (λ x. (x.0, x.1.now)) result (hello_at b.now) }
{
    let (term, rest) = u64_at(b, WireFault::Short)?;
    let (ticket, rest) = ticket_of(rest)?;
    let (end, rest) = u64_at(rest, WireFault::Short)?;
    let (count, rest) = u32_at(rest, WireFault::Short)?;
    let (starts, rest) = starts_of(alloc, count, rest)?;
    let body = Body::Hello {
        ticket,
        end,
        starts,
    };
    Ok((Message { term, body }, rest))
}

#[tactic(auto, unfolding(crate::specs::Reading::resume_at))]
fn resume_of(b: &[u8]) -> Result<(Message, &[u8]), WireFault>
    ensures { Gives (λ x. (x.0, x.1.now)) result (resume_at b.now) }
{
    let (term, rest) = u64_at(b, WireFault::Short)?;
    let (ticket, rest) = ticket_of(rest)?;
    let (fork, rest) = u64_at(rest, WireFault::Short)?;
    let (end, rest) = u64_at(rest, WireFault::Short)?;
    let body = Body::Resume { ticket, fork, end };
    Ok((Message { term, body }, rest))
}

#[tactic(auto, unfolding(crate::specs::Reading::block_at))]
fn block_of(alloc: Global, b: &[u8]) -> Result<(Message, &[u8]), WireFault>
    ensures { Gives (λ x. (x.0, x.1.now)) result (block_at b.now) }
{
    let (term, rest) = u64_at(b, WireFault::Short)?;
    let (block_term, rest) = u64_at(rest, WireFault::Short)?;
    let (first, rest) = u64_at(rest, WireFault::Short)?;
    let (records, rest) = payload_of(alloc, rest)?;
    let block = Block {
        first,
        term: block_term,
        records,
    };
    let body = Body::Block(block);
    Ok((Message { term, body }, rest))
}

#[tactic(auto, unfolding(crate::specs::Reading::ack_at))]
fn ack_of(b: &[u8]) -> Result<(Message, &[u8]), WireFault>
    ensures { Gives (λ x. (x.0, x.1.now)) result (ack_at b.now) }
{
    let (term, rest) = u64_at(b, WireFault::Short)?;
    let (hardened, rest) = u64_at(rest, WireFault::Short)?;
    let (low, rest) = u64_at(rest, WireFault::Short)?;
    let body = Body::Ack { hardened, low };
    Ok((Message { term, body }, rest))
}

#[tactic(auto, unfolding(crate::specs::Reading::message_at, crate::specs::Reading::fields_at))]
fn message_of(alloc: Global, b: &[u8]) -> Result<(Message, &[u8]), WireFault>
    ensures { Gives (λ x. (x.0, x.1.now)) result (message_at b.now) }
{
    let [kind, rest @ ..] = b else {
        return Err(WireFault::Short);
    };
    match kind {
        1 => hello_of(alloc, rest),
        2 => resume_of(rest),
        3 => block_of(alloc, rest),
        4 => ack_of(rest),
        _ => Err(WireFault::BadKind),
    }
}

fn read(alloc: Global, b: &[u8]) -> Result<Message, WireFault>
    ensures { Answers result (reading b.now) }
{
    let (message, rest) = message_of(alloc, b)?;
    if !rest.is_empty() {
        return Err(WireFault::Extra);
    }
    Ok(message)
}

/// The message that all of the bytes are.
pub fn decode(alloc: Global, b: &[u8]) -> Result<Message, WireFault>
    // What is read is spelled so.
    ensures fits { IfOk result HasSpelling }
    ensures spelled { IfOk result (λ m. b.now ≡ spelling m) }

    // What is spelled so is read, unless memory runs out.
    ensures only { (m : Message) → HasSpelling m → b.now ≡ spelling m → Answers result (Ok m) }

    // Which fault it is.
    ensures exact { Answers result (reading b.now) }
{
    read(alloc, b)
}
