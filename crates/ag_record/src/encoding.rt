//! Records to bytes.
ghost use Rattle.std.specs.Prelude.{◌≡◌, ◌≤◌, ◌+◌, ◌*◌, ◌++◌, ◌∷◌, length, vec_len, vec_capacity, IsOk, OnOk, OnErr};
ghost use Rattle.std.specs.Int.{w16, w64, to_be_bytes};
ghost use Rattle.std.specs.List.{flat_map};
ghost use Rattle.ag_model.specs.declared.record.Record.TheVariants.{Put, Del, Commit, Abort, Trim, Term};
ghost use Rattle.ag_model.specs.Sizes.{record_size};
ghost use Rattle.ag_record.specs.Spelling.{value_spelling, pages_spelling, spelling, records_spelling, HasSpelling, HaveSpelling, IsValue, ArePages};

use crate::numbers::{put_u16, put_u32, put_u64};
use ag_model::record::{PageList, Record};
use ag_model::value::{NoMemory, Value};

/// How many bytes a record takes.
pub fn size(r: &Record) -> usize
    requires { HasSpelling r.now }
    ensures { result ≡ record_size r.now }
{
    match r {
        Record::Put { value, .. } => 15 + usize::from(value.len),
        Record::Del { .. } => 13,
        Record::Commit { pages, .. } | Record::Abort { pages, .. } => 11 + 2 * pages.len(),
        Record::Trim { .. } => 11,
        Record::Term { .. } => 9,
    }
}

fn put(txn: u64, key: u32, value: &Value, out: &mut Vec<u8>) -> Result<(), NoMemory>
    requires { IsValue value.now }
    ensures ok { OnOk result (out.new.items ≡ out.old.items ++ spelling (Put txn key value.now)) }
    ensures err { OnErr result (out.new.items ≡ out.old.items) }
{
    let len = usize::from(value.len);
    out.reserve(15 + len)?;
    out.extend_from_slice(&[1])?;
    put_u64(txn, out)?;
    put_u32(key, out)?;
    put_u16(u16::from(value.len), out)?;
    out.extend_from_slice(&value.bytes[..len])?;
    Ok(())
}

fn del(txn: u64, key: u32, out: &mut Vec<u8>) -> Result<(), NoMemory>
    ensures ok { OnOk result (out.new.items ≡ out.old.items ++ spelling (Del txn key)) }
    ensures err { OnErr result (out.new.items ≡ out.old.items) }
{
    out.reserve(13)?;
    out.extend_from_slice(&[2])?;
    put_u64(txn, out)?;
    put_u32(key, out)?;
    Ok(())
}

fn pages_of(pages: &[u16], out: &mut Vec<u8>) -> Result<(), NoMemory>
    requires room { vec_len out.old + 2 * length pages.now ≤ vec_capacity out.old }
    ensures ok { IsOk result }
    ensures items { out.new.items ≡ out.old.items ++ flat_map (to_be_bytes w16) pages.now }
{
    for page in pages {
        put_u16(*page, out)?;
    }
    Ok(())
}

fn ending(kind: u8, txn: u64, pages: &PageList, out: &mut Vec<u8>) -> Result<(), NoMemory>
    requires { ArePages pages.now }
    ensures ok { OnOk result (out.new.items ≡ out.old.items ++ kind ∷ (to_be_bytes w64 txn ++ pages_spelling pages.now)) }
    ensures err { OnErr result (out.new.items ≡ out.old.items) }
{
    let pages = pages.as_slice();
    out.reserve(11 + 2 * pages.len())?;
    out.extend_from_slice(&[kind])?;
    put_u64(txn, out)?;
    put_u16(pages.len() as u16, out)?;
    pages_of(pages, out)?;
    Ok(())
}

fn trim(page: u16, horizon: u64, out: &mut Vec<u8>) -> Result<(), NoMemory>
    ensures ok { OnOk result (out.new.items ≡ out.old.items ++ spelling (Trim page horizon)) }
    ensures err { OnErr result (out.new.items ≡ out.old.items) }
{
    out.reserve(11)?;
    out.extend_from_slice(&[5])?;
    put_u16(page, out)?;
    put_u64(horizon, out)?;
    Ok(())
}

fn term(term: u64, out: &mut Vec<u8>) -> Result<(), NoMemory>
    ensures ok { OnOk result (out.new.items ≡ out.old.items ++ spelling (Term term)) }
    ensures err { OnErr result (out.new.items ≡ out.old.items) }
{
    out.reserve(9)?;
    out.extend_from_slice(&[6])?;
    put_u64(term, out)?;
    Ok(())
}

/// Appends the bytes of a record.
pub fn encode(r: &Record, out: &mut Vec<u8>) -> Result<(), NoMemory>
    requires { HasSpelling r.now }
    ensures ok { OnOk result (out.new.items ≡ out.old.items ++ spelling r.now) }
    ensures err { OnErr result (out.new.items ≡ out.old.items) }
{
    match r {
        Record::Put { txn, key, value } => put(*txn, *key, value, out),
        Record::Del { txn, key } => del(*txn, *key, out),
        Record::Commit { txn, pages } => ending(3, *txn, pages, out),
        Record::Abort { txn, pages } => ending(4, *txn, pages, out),
        Record::Trim { page, horizon } => trim(*page, *horizon, out),
        Record::Term { term: number } => term(*number, out),
    }
}
