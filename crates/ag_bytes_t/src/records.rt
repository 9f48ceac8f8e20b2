//! Records and numbers from bytes and back.
use crate::printing::{said_bytes, said_records};
use ag_model::record::RecordList;
use ag_model::value::NoMemory;
use ag_record::{
    RecordFault, decode, decode_all, encode, encode_all, put_u16, put_u32, put_u64, size, u16_at,
    u32_at, u64_at,
};
use std::alloc::{AllocError, Global};

/// What is read at the front of some bytes.
#[derive(Drop)]
struct One {
    records: RecordList,
    len: usize,
    size: usize,
    again: Vec<u8>,
}

/// The record at the front of some bytes, how many bytes it takes as read and as counted, and its bytes.
fn read_one(alloc: Global, bytes: &[u8]) -> Result<One, RecordFault> {
    let (record, len) = decode(alloc, bytes)?;
    let mut again = Vec::new(alloc);
    if encode(&record, &mut again).is_err() {
        return Err(RecordFault::NoMemory);
    }
    let size = size(&record);
    let mut records = RecordList::new(alloc);
    records.push(record)?;
    Ok(One {
        records,
        len,
        size,
        again,
    })
}

/// The fault of the first bytes, so many.
fn fault_of_front(alloc: Global, bytes: &[u8], len: usize) -> Option<RecordFault> {
    let front = bytes.get(..len).unwrap_or(&[]);
    decode(alloc, front).err()
}

/// The first bytes that are cut off with another outcome than that a byte is missing.
fn cut_off(alloc: Global, bytes: &[u8]) -> Result<String, AllocError> {
    for len in 0..bytes.len() {
        let fault = fault_of_front(alloc, bytes, len);
        if fault != Some(RecordFault::Short) {
            return format!(in alloc; "{len} {fault:?}");
        }
    }
    format!(in alloc; "cut off: Short")
}

/// A record from bytes and back, and from fewer bytes.
pub fn record(alloc: Global, bytes: &[u8]) -> Result<String, AllocError> {
    let one = match read_one(alloc, bytes) {
        Ok(one) => one,
        Err(fault) => return format!(in alloc; "{fault:?}"),
    };
    let said = said_records(alloc, one.records.as_slice())?;
    let len = one.len;
    let size = one.size;
    let again = said_bytes(alloc, &one.again)?;
    let cut_off = cut_off(alloc, bytes)?;
    format!(in alloc; "{said} {len} {size} {again} {cut_off}")
}

/// The records of all of the bytes, and their bytes.
fn read_all(alloc: Global, bytes: &[u8]) -> Result<(RecordList, Vec<u8>), RecordFault> {
    let records = decode_all(alloc, bytes)?;
    let mut again = Vec::new(alloc);
    if encode_all(records.as_slice(), &mut again).is_err() {
        return Err(RecordFault::NoMemory);
    }
    Ok((records, again))
}

/// Records from bytes and back.
pub fn records(alloc: Global, bytes: &[u8]) -> Result<String, AllocError> {
    let (records, again) = match read_all(alloc, bytes) {
        Ok(both) => both,
        Err(fault) => return format!(in alloc; "{fault:?}"),
    };
    let said = said_records(alloc, records.as_slice())?;
    let again = said_bytes(alloc, &again)?;
    format!(in alloc; "{said} {again}")
}

/// Numbers of 2, 4 and 8 bytes, and how many bytes are left; else how many bytes the first number takes that isn't there.
fn read_numbers(bytes: &[u8]) -> Result<(u16, u32, u64, usize), u8> {
    let (two, rest) = u16_at(bytes, 2)?;
    let (four, rest) = u32_at(rest, 4)?;
    let (eight, rest) = u64_at(rest, 8)?;
    Ok((two, four, eight, rest.len()))
}

/// The bytes of three numbers.
fn written(alloc: Global, two: u16, four: u32, eight: u64) -> Result<Vec<u8>, NoMemory> {
    let mut out = Vec::new(alloc);
    put_u16(two, &mut out)?;
    put_u32(four, &mut out)?;
    put_u64(eight, &mut out)?;
    Ok(out)
}

/// Numbers from bytes and back.
pub fn numbers(alloc: Global, bytes: &[u8]) -> Result<String, AllocError> {
    let (two, four, eight, left) = match read_numbers(bytes) {
        Ok(numbers) => numbers,
        Err(missing) => return format!(in alloc; "no {missing} bytes"),
    };
    let Ok(again) = written(alloc, two, four, eight) else {
        return format!(in alloc; "no memory");
    };
    let again = said_bytes(alloc, &again)?;
    format!(in alloc; "{two:x} {four:x} {eight:x} {left} {again}")
}
