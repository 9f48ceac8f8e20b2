//! Records one after the other.
ghost use Rattle.std.specs.Prelude.{◌≡◌, ◌<◌, ◌^◌, ◌++◌, ℕ, List, Ok, SomeIff, IfOk, IfErr, OnOk, OnErr};
ghost use Rattle.ag_model.specs.Sizes.{records_size};
ghost use Rattle.ag_model.specs.declared.record.Record.{Record};
ghost use Rattle.ag_record.specs.Spelling.{records_spelling, HaveSpelling};
ghost use Rattle.ag_record.specs.Reading.{Answers};
ghost use Rattle.ag_record.specs.Lists.{Begins, MayFail};

use crate::decoding::decode;
use crate::encoding::{encode, size};
use crate::fault::RecordFault;
use ag_model::record::{Record, RecordList};
use ag_model::value::NoMemory;
use std::alloc::Global;

/// How many bytes some records take, where a `usize` holds that.
fn total_size(rs: &[Record]) -> Option<usize>
    requires { HaveSpelling rs.now }
    ensures { SomeIff result (records_size rs.now < 2 ^ 64) (records_size rs.now) }
{
    let mut total: usize = 0;
    for r in rs {
        total = total.checked_add(size(r))?;
    }
    Some(total)
}

fn append(rs: &[Record], out: &mut Vec<u8>) -> Result<(), NoMemory>
    requires { HaveSpelling rs.now }
    ensures ok { OnOk result (out.new.items ≡ out.old.items ++ records_spelling rs.now) }
    ensures err { OnErr result (Begins out.old.items out.new.items) }
{
    for r in rs {
        encode(r, out)?;
    }
    Ok(())
}

/// Appends the bytes of some records. The vector grows once at most.
pub fn encode_all(rs: &[Record], out: &mut Vec<u8>) -> Result<(), NoMemory>
    requires { HaveSpelling rs.now }
    ensures ok { OnOk result (out.new.items ≡ out.old.items ++ records_spelling rs.now) }
    ensures err { OnErr result (out.new.items ≡ out.old.items) }
{
    let total = total_size(rs).ok_or(NoMemory)?;
    out.reserve(total)?;
    let start = out.len();
    let result = append(rs, out);
    if result.is_err() {
        out.truncate(start);
    }
    result
}

/// The records that all of the bytes are. Their list is made once, with room for as many records of the least size, 9 bytes,
/// as the bytes could hold.
pub fn decode_all(alloc: Global, b: &[u8]) -> Result<RecordList, RecordFault>
    // What is read is spelled so.
    ensures fits { IfOk result (λ rs. HaveSpelling rs) }
    ensures spelled { IfOk result (λ rs. b.now ≡ records_spelling rs) }

    // What is spelled so is read, unless memory runs out.
    ensures only { (rs : List Record) → HaveSpelling rs → b.now ≡ records_spelling rs → Answers result (Ok rs) }

    // A fault is that of the bytes after some records.
    ensures fault { IfErr result (MayFail b.now) }
{
    let mut records = Vec::with_capacity(alloc, b.len() / 9)?;
    let mut rest = b;
    while !rest.is_empty() {
        let (record, size) = decode(alloc, rest)?;
        records.push(record)?;
        rest = &rest[size..];
    }
    Ok(RecordList::from_vec(records))
}
