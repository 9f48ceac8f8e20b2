//! Messages to bytes.
ghost use Rattle.std.specs.Prelude.{◌≡◌, ◌++◌, length, OnOk, OnErr};
ghost use Rattle.std.specs.List.{flat_map};
ghost use Rattle.std.specs.Int.{w16, w32, w64, to_be_bytes};
ghost use Rattle.ag_record.specs.Lists.{Begins};
ghost use Rattle.ag_record.specs.Spelling.{records_spelling, ArePayload};
ghost use Rattle.ag_wire.specs.Spelling.{pair_spelling, ticket_spelling, start_spelling, starts_spelling, block_spelling};
ghost use Rattle.ag_wire.specs.Spelling.{kind_of, fields_spelling, head_spelling, spelling, AreStarts, IsBlock, IsBody, HasSpelling};

use ag_model::config::{TermStart, Ticket};
use ag_model::message::{Block, Body, Message};
use ag_model::record::Record;
use ag_model::value::NoMemory;
use ag_record::{encode_all, put_u16, put_u32, put_u64, size};

fn head(kind: u8, term: u64, out: &mut Vec<u8>) -> Result<(), NoMemory>
    ensures ok { OnOk result (out.new.items ≡ out.old.items ++ head_spelling kind term) }
    ensures err { OnErr result (out.new.items ≡ out.old.items) }
{
    out.reserve(9)?;
    out.extend_from_slice(&[kind])?;
    put_u64(term, out)?;
    Ok(())
}

fn pair(a: u64, b: u64, out: &mut Vec<u8>) -> Result<(), NoMemory>
    ensures ok { OnOk result (out.new.items ≡ out.old.items ++ pair_spelling a b) }
    ensures err { OnErr result (out.new.items ≡ out.old.items) }
{
    out.reserve(16)?;
    put_u64(a, out)?;
    put_u64(b, out)?;
    Ok(())
}

fn ticket(t: &Ticket, out: &mut Vec<u8>) -> Result<(), NoMemory>
    ensures ok { OnOk result (out.new.items ≡ out.old.items ++ ticket_spelling t.now) }
    ensures err { OnErr result (out.new.items ≡ out.old.items) }
{
    out.reserve(12)?;
    put_u64(t.incarnation, out)?;
    put_u32(t.joins, out)?;
    Ok(())
}

fn each_start(starts: &[TermStart], out: &mut Vec<u8>) -> Result<(), NoMemory>
    ensures ok { OnOk result (out.new.items ≡ out.old.items ++ flat_map start_spelling starts.now) }
    ensures err { OnErr result (Begins out.old.items out.new.items) }
{
    for start in starts {
        pair(start.term, start.lsn, out)?;
    }
    Ok(())
}

fn starts_of(starts: &[TermStart], out: &mut Vec<u8>) -> Result<(), NoMemory>
    requires { AreStarts starts.now }
    ensures ok { OnOk result (out.new.items ≡ out.old.items ++ starts_spelling starts.now) }
    ensures err { OnErr result (Begins out.old.items out.new.items) }
{
    put_u32(starts.len() as u32, out)?;
    each_start(starts, out)
}

/// How many bytes the records take.
fn payload_size(records: &[Record]) -> usize
    requires { ArePayload records.now }
    ensures { result ≡ length (records_spelling records.now) }
{
    let mut total = 0;
    for r in records {
        total += size(r);
    }
    total
}

#[tactic(auto, using(crate::proofs::Appended::begins_more, crate::proofs::Appended::appended3))]
fn block_of(block: &Block, out: &mut Vec<u8>) -> Result<(), NoMemory>
    requires { IsBlock block.now }
    ensures ok { OnOk result (out.new.items ≡ out.old.items ++ block_spelling block.now) }
    ensures err { OnErr result (Begins out.old.items out.new.items) }
{
    let records = block.records.as_slice();
    pair(block.term, block.first, out)?;
    put_u16(payload_size(records) as u16, out)?;
    encode_all(records, out)?;
    Ok(())
}

#[tactic(auto, using(crate::proofs::Appended::begins_more, crate::proofs::Appended::appended3))]
fn hello(from: &Ticket, end: u64, starts: &[TermStart], out: &mut Vec<u8>) -> Result<(), NoMemory>
    requires { AreStarts starts.now }
    ensures ok { OnOk result (out.new.items ≡ out.old.items ++ (ticket_spelling from.now ++ (to_be_bytes w64 end ++ starts_spelling starts.now))) }
    ensures err { OnErr result (Begins out.old.items out.new.items) }
{
    ticket(from, out)?;
    put_u64(end, out)?;
    starts_of(starts, out)?;
    Ok(())
}

#[tactic(auto, using(crate::proofs::Appended::begins_more, crate::proofs::Appended::appended2))]
fn resume(to: &Ticket, fork: u64, end: u64, out: &mut Vec<u8>) -> Result<(), NoMemory>
    ensures ok { OnOk result (out.new.items ≡ out.old.items ++ (ticket_spelling to.now ++ pair_spelling fork end)) }
    ensures err { OnErr result (Begins out.old.items out.new.items) }
{
    ticket(to, out)?;
    pair(fork, end, out)
}

/// The first byte of a message.
fn kind_of(body: &Body) -> u8
    ensures { result ≡ kind_of body.now }
{
    match body {
        Body::Hello { .. } => 1,
        Body::Resume { .. } => 2,
        Body::Block(_) => 3,
        Body::Ack { .. } => 4,
        Body::PageAsk { .. } => 5,
        Body::PageGive { .. } => 6,
        Body::PageNo { .. } => 7,
    }
}

fn fields(body: &Body, out: &mut Vec<u8>) -> Result<(), NoMemory>
    requires { IsBody body.now }
    ensures ok { OnOk result (out.new.items ≡ out.old.items ++ fields_spelling body.now) }
    ensures err { OnErr result (Begins out.old.items out.new.items) }
{
    match body {
        Body::Hello {
            ticket,
            end,
            starts,
        } => hello(ticket, *end, starts.as_slice(), out),
        Body::Resume { ticket, fork, end } => resume(ticket, *fork, *end, out),
        Body::Block(block) => block_of(block, out),
        Body::Ack { hardened, low } => pair(*hardened, *low, out),
        _ => unreachable!(),
    }
}

#[tactic(auto, using(crate::proofs::Appended::begins_more, crate::proofs::Appended::appended2))]
fn append(m: &Message, out: &mut Vec<u8>) -> Result<(), NoMemory>
    requires { HasSpelling m.now }
    ensures ok { OnOk result (out.new.items ≡ out.old.items ++ spelling m.now) }
    ensures err { OnErr result (Begins out.old.items out.new.items) }
{
    head(kind_of(&m.body), m.term, out)?;
    fields(&m.body, out)
}

/// How many bytes a message takes.
fn message_size(m: &Message) -> usize
    requires { HasSpelling m.now }
    ensures { result ≡ length (spelling m.now) }
{
    match &m.body {
        Body::Hello { starts, .. } => 33 + 16 * starts.len(),
        Body::Resume { .. } => 37,
        Body::Block(block) => 27 + payload_size(block.records.as_slice()),
        Body::Ack { .. } => 25,
        _ => unreachable!(),
    }
}

/// Appends the bytes of a message. Where memory is refused nothing is appended.
pub fn encode(m: &Message, out: &mut Vec<u8>) -> Result<(), NoMemory>
    requires { HasSpelling m.now }
    ensures ok { OnOk result (out.new.items ≡ out.old.items ++ spelling m.now) }
    ensures err { OnErr result (out.new.items ≡ out.old.items) }
{
    out.reserve(message_size(m))?;
    let start = out.len();
    let result = append(m, out);
    if result.is_err() {
        out.truncate(start);
    }
    result
}
