//! A payload cut up into sectors.
ghost use Rattle.std.specs.Prelude.{◌≡◌, ◌++◌, ◌∷◌, [], ◌≤◌, ◌<◌, ◌+◌, ◌/◌, length, OnOk, OnErr};
ghost use Rattle.std.specs.Int.{w16, w64, to_be_bytes};
ghost use Rattle.ag_logblock.specs.Block.{sector, sectors_for, block, HasBlock};

use crate::{Head, Sector};
use ag_model::value::NoMemory;
use byteorder::{BigEndian, ByteOrder};

/// The fields before the part of the payload.
fn header(head: &Head, count: u8, index: u8, used: u16) -> [u8; 28]
    ensures { result ≡ to_be_bytes w64 head.now.term ++ (to_be_bytes w64 head.now.incarnation ++ (to_be_bytes w64 head.now.first ++ (index ∷ count ∷ to_be_bytes w16 used))) }
{
    let mut bytes = [0; 28];
    BigEndian::write_u64(&mut bytes, head.term);
    BigEndian::write_u64(&mut bytes[8..], head.incarnation);
    BigEndian::write_u64(&mut bytes[16..], head.first);
    bytes[24] = index;
    bytes[25] = count;
    BigEndian::write_u16(&mut bytes[26..], used);
    bytes
}

fn sector(head: &Head, count: u8, index: u8, part: &[u8]) -> Sector
    requires { length part.now ≤ 484 }
    ensures { result ≡ sector head.now count index part.now }
{
    let len = part.len();
    let mut bytes = [0; 512];
    bytes[..28].copy_from_slice(&header(head, count, index, len as u16));
    bytes[28..28 + len].copy_from_slice(part);
    bytes
}

/// How many sectors a block with so many bytes of payload takes.
pub fn sectors_of(bytes: u64) -> u64
    ensures { result ≡ (bytes + 483) / 484 }
{
    bytes.div_ceil(484)
}

/// Appends the sectors of a block with this payload.
pub fn cut_up(head: &Head, payload: &[u8], out: &mut Vec<Sector>) -> Result<(), NoMemory>
    requires { HasBlock head.now payload.now }
    ensures ok { OnOk result (out.new.items ≡ out.old.items ++ block head.now payload.now) }
    ensures err { OnErr result (out.new.items ≡ out.old.items) }
{
    let sectors = payload.len().div_ceil(484);
    out.reserve(sectors)?;
    let count = sectors as u8;
    let mut rest = payload;
    for index in 0..count {
        let (part, after) = rest.split_at(rest.len().min(484));
        out.extend_from_slice(&[sector(head, count, index, part)])?;
        rest = after;
    }
    Ok(())
}
