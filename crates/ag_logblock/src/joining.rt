//! Sectors put together.
ghost use Rattle.std.specs.Prelude.{◌≡◌, ◌++◌, ℕ, ◌+◌, ◌*◌, ◌≤◌, ◌<◌, ◌==◌, List, length, vec_len, vec_capacity, Ok, IsOk, IfOk, OnOk, OnErr};
ghost use Rattle.std.specs.List.{All, list_all};
ghost use Rattle.ag_logblock.specs.declared.Head.{Head};
ghost use Rattle.ag_logblock.specs.Block.{block, HasBlock};
ghost use Rattle.ag_logblock.specs.Fitting.{IsSector, header_of, part_of, payload_of, is_used, header_fits, fits, misfit, head_of, Answers};

use crate::{BlockFault, Head, Header, Sector};
use byteorder::{BigEndian, ByteOrder};

fn header(sector: &Sector) -> Header
    ensures { result ≡ header_of sector.now }
{
    Header {
        head: Head {
            term: BigEndian::read_u64(&sector[..8]),
            incarnation: BigEndian::read_u64(&sector[8..16]),
            first: BigEndian::read_u64(&sector[16..24]),
        },
        index: sector[24],
        count: sector[25],
        used: BigEndian::read_u16(&sector[26..28]),
    }
}

fn is_used(h: &Header) -> bool
    ensures { result ≡ is_used h.now }
{
    if u16::from(h.index) + 1 == u16::from(h.count) {
        (1..=484).contains(&h.used)
    } else {
        h.used == 484
    }
}

fn header_fits(first: &Header, index: usize, h: &Header) -> bool
    ensures { result ≡ header_fits first.now index h.now }
{
    h.head.incarnation >= 1
        && h.count <= 32
        && usize::from(h.index) == index
        && index < usize::from(h.count)
        && is_used(h)
        && h.head == first.head
        && h.count == first.count
}

fn is_zero(bytes: &[u8]) -> bool
    ensures { result ≡ list_all (λ b. b == 0) bytes.now }
{
    bytes.iter().all(|b| *b == 0)
}

#[tactic(auto, unfolding(crate::specs::Fitting::fits))]
fn fits(first: &Header, index: usize, sector: &Sector) -> bool
    ensures fits { result ≡ fits first.now index sector.now }
    ensures sector { IsSector sector.now }
{
    let h = header(sector);
    if !header_fits(first, index, &h) {
        return false;
    }
    let end = 28 + usize::from(h.used);
    is_zero(&sector[end..])
}

/// The index of the first sector that doesn't fit where it is, or how many sectors there are.
fn misfit(first: &Header, s: &[Sector]) -> usize
    ensures index { result ≡ misfit first.now 0 s.now }
    ensures sectors { result ≡ length s.now → All IsSector s.now }
    ensures least { result ≤ 32 }
{
    for (index, sector) in s.iter().enumerate() {
        if !fits(first, index, sector) {
            return index;
        }
    }
    s.len()
}

fn append(s: &[Sector], out: &mut Vec<u8>) -> Result<(), BlockFault>
    requires room { vec_len out.old + 484 * length s.now ≤ vec_capacity out.old }
    requires used { All (λ x. (header_of x).used ≤ 484) s.now }
    ensures ok { IsOk result }
    ensures items { out.new.items ≡ out.old.items ++ payload_of s.now }
{
    for sector in s {
        let end = 28 + usize::from(header(sector).used);
        out.extend_from_slice(&sector[28..end])?;
    }
    Ok(())
}

fn join(s: &[Sector], out: &mut Vec<u8>) -> Result<Head, BlockFault>
    ensures exact { Answers result (head_of s.now) }
    ensures sectors { OnOk result (All IsSector s.now) }
    ensures items { OnOk result (out.new.items ≡ out.old.items ++ payload_of s.now) }
    ensures err { OnErr result (out.new.items ≡ out.old.items) }
{
    let [start, ..] = s else {
        return Err(BlockFault::NoBlock { sector: 0 });
    };
    let first = header(start);
    let misfit = misfit(&first, s);
    if misfit < s.len() || s.len() != usize::from(first.count) {
        return Err(BlockFault::NoBlock {
            sector: misfit as u32,
        });
    }
    out.reserve(484 * s.len())?;
    append(s, out)?;
    Ok(first.head)
}

/// Appends the payload of a block.
pub fn put_together(s: &[Sector], out: &mut Vec<u8>) -> Result<Head, BlockFault>
    // What is put together is one block.
    ensures fits { IfOk result (λ h. HasBlock h (payload_of s.now)) }
    ensures block { IfOk result (λ h. s.now ≡ block h (payload_of s.now)) }
    ensures items { OnOk result (out.new.items ≡ out.old.items ++ payload_of s.now) }

    // What is one block is put together, unless memory runs out.
    ensures only { (h : Head) (payload : List ℕ) → HasBlock h payload → s.now ≡ block h payload → Answers result (Ok h) }
    ensures payload { (h : Head) (payload : List ℕ) → HasBlock h payload → s.now ≡ block h payload → payload_of s.now ≡ payload }

    // Which sector doesn't fit.
    ensures exact { Answers result (head_of s.now) }
    ensures err { OnErr result (out.new.items ≡ out.old.items) }
{
    join(s, out)
}
