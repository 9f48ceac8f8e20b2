//! Numbers of 2, 4 and 8 bytes, the highest byte first: every reader and writer of bytes goes through these.
ghost use Rattle.std.specs.Prelude.{◌≡◌, ◌++◌, ◌+◌, ◌≤◌, ◌<◌, vec_len, vec_capacity, OnOk, OnErr};
ghost use Rattle.std.specs.Int.{w16, w32, w64, to_be_bytes};
ghost use Rattle.ag_record.specs.Steps.{number_at, GivesExactly};

use ag_model::value::NoMemory;
use byteorder::{BigEndian, ByteOrder};

/// The number in the first 2 bytes, and the bytes after it; the fault `short` where there are fewer.
pub fn u16_at<F: Copy>(b: &[u8], short: F) -> Result<(u16, &[u8]), F>
    ensures { GivesExactly (λ x. (x.0, x.1.now)) result (number_at short w16 b.now) }
{
    if b.len() < 2 {
        return Err(short);
    }
    let (front, rest) = b.split_at(2);
    Ok((BigEndian::read_u16(front), rest))
}

/// The number in the first 4 bytes, and the bytes after it; the fault `short` where there are fewer.
pub fn u32_at<F: Copy>(b: &[u8], short: F) -> Result<(u32, &[u8]), F>
    ensures { GivesExactly (λ x. (x.0, x.1.now)) result (number_at short w32 b.now) }
{
    if b.len() < 4 {
        return Err(short);
    }
    let (front, rest) = b.split_at(4);
    Ok((BigEndian::read_u32(front), rest))
}

/// The number in the first 8 bytes, and the bytes after it; the fault `short` where there are fewer.
pub fn u64_at<F: Copy>(b: &[u8], short: F) -> Result<(u64, &[u8]), F>
    ensures { GivesExactly (λ x. (x.0, x.1.now)) result (number_at short w64 b.now) }
{
    if b.len() < 8 {
        return Err(short);
    }
    let (front, rest) = b.split_at(8);
    Ok((BigEndian::read_u64(front), rest))
}

/// Appends a number in 2 bytes. It fails only where there is no room for them.
pub fn put_u16(n: u16, out: &mut Vec<u8>) -> Result<(), NoMemory>
    ensures ok { OnOk result (out.new.items ≡ out.old.items ++ to_be_bytes w16 n) }
    ensures len { OnOk result (vec_len out.new ≡ vec_len out.old + 2) }
    ensures err { OnErr result (out.new.items ≡ out.old.items) }
    ensures full { OnErr result (vec_capacity out.old < vec_len out.old + 2) }
    ensures capacity { vec_capacity out.old ≤ vec_capacity out.new }
{
    let mut bytes = [0; 2];
    BigEndian::write_u16(&mut bytes, n);
    out.extend_from_slice(&bytes)?;
    Ok(())
}

/// Appends a number in 4 bytes. It fails only where there is no room for them.
pub fn put_u32(n: u32, out: &mut Vec<u8>) -> Result<(), NoMemory>
    ensures ok { OnOk result (out.new.items ≡ out.old.items ++ to_be_bytes w32 n) }
    ensures len { OnOk result (vec_len out.new ≡ vec_len out.old + 4) }
    ensures err { OnErr result (out.new.items ≡ out.old.items) }
    ensures full { OnErr result (vec_capacity out.old < vec_len out.old + 4) }
    ensures capacity { vec_capacity out.old ≤ vec_capacity out.new }
{
    let mut bytes = [0; 4];
    BigEndian::write_u32(&mut bytes, n);
    out.extend_from_slice(&bytes)?;
    Ok(())
}

/// Appends a number in 8 bytes. It fails only where there is no room for them.
pub fn put_u64(n: u64, out: &mut Vec<u8>) -> Result<(), NoMemory>
    ensures ok { OnOk result (out.new.items ≡ out.old.items ++ to_be_bytes w64 n) }
    ensures len { OnOk result (vec_len out.new ≡ vec_len out.old + 8) }
    ensures err { OnErr result (out.new.items ≡ out.old.items) }
    ensures full { OnErr result (vec_capacity out.old < vec_len out.old + 8) }
    ensures capacity { vec_capacity out.old ≤ vec_capacity out.new }
{
    let mut bytes = [0; 8];
    BigEndian::write_u64(&mut bytes, n);
    out.extend_from_slice(&bytes)?;
    Ok(())
}
