//! The bytes of a master, both ways. Neither way takes memory.
ghost use Rattle.std.specs.Prelude.{◌≡◌, ◌++◌, ◌∷◌, [], ℕ, length, take, drop, replicate, slice_index, IsTrue, ◌↔◌};
ghost use Rattle.std.specs.Int.{w16, w64, to_be_bytes};
ghost use Rattle.ag_master.specs.Spelling.{spelling, fields, letters, IsKept};
ghost use Rattle.ag_master.specs.Loading.{IsLoaded};

use crate::master::Master;
use ag_model::page_set::PageSet;
use ag_outside::disk::Sector;
use byteorder::{BigEndian, ByteOrder};

/// What the master's sector is.
#[derive(Clone, Copy, Debug)]
pub enum Loaded {
    /// It was never written: all of it is zero.
    Fresh,
    Is(Master),
    /// It is neither zero nor a master.
    Other,
}

/// The fields before the foreign pages.
fn head(m: &Master) -> [u8; 56]
    ensures { result ≡ letters
        ++ (to_be_bytes w16 m.now.format
        ++ (m.now.state ∷ 0 ∷ (to_be_bytes w64 m.now.incarnation
        ++ (to_be_bytes w64 m.now.term
        ++ (to_be_bytes w64 m.now.cut ++ (to_be_bytes w64 m.now.undo ++ (to_be_bytes w64 m.now.redo ++ (to_be_bytes w16 m.now.pages ++ (m.now.replica ∷ 0 ∷ []))))))))) }
{
    let mut bytes = [0; 56];
    bytes[..8].copy_from_slice(b"AGMASTER");
    BigEndian::write_u16(&mut bytes[8..], m.format);
    bytes[10] = m.state;
    BigEndian::write_u64(&mut bytes[12..], m.incarnation);
    BigEndian::write_u64(&mut bytes[20..], m.term);
    BigEndian::write_u64(&mut bytes[28..], m.cut);
    BigEndian::write_u64(&mut bytes[36..], m.undo);
    BigEndian::write_u64(&mut bytes[44..], m.redo);
    BigEndian::write_u16(&mut bytes[52..], m.pages);
    bytes[54] = m.replica;
    bytes
}

/// The sector of a master.
pub(crate) fn encode(m: &Master) -> Sector
    ensures { result ≡ spelling m.now }
{
    let mut bytes = [0; 512];
    bytes[..56].copy_from_slice(&head(m));
    bytes[56..312].copy_from_slice(&m.foreign.to_bytes());
    bytes
}

fn bitmap(sector: &Sector) -> [u8; 256]
    ensures { result ≡ take 256 (drop 56 sector.now) }
{
    let mut bits = [0; 256];
    bits.copy_from_slice(&sector[56..312]);
    bits
}

#[tactic(auto, unfolding(crate::specs::Spelling::fields))]
fn fields(sector: &Sector) -> Master
    ensures { result ≡ fields sector.now }
{
    Master {
        format: BigEndian::read_u16(&sector[8..10]),
        state: sector[10],
        incarnation: BigEndian::read_u64(&sector[12..20]),
        term: BigEndian::read_u64(&sector[20..28]),
        cut: BigEndian::read_u64(&sector[28..36]),
        undo: BigEndian::read_u64(&sector[36..44]),
        redo: BigEndian::read_u64(&sector[44..52]),
        pages: BigEndian::read_u16(&sector[52..54]),
        replica: sector[54],
        foreign: PageSet::from_bytes(&bitmap(sector)),
    }
}

fn is_kept(m: &Master) -> bool
    ensures { IsTrue result ↔ IsKept m.now }
{
    m.format == 1 && (m.state == 0 || m.state == 3 || m.state == 4)
}

/// What a sector is.
pub(crate) fn decode(sector: &Sector) -> Loaded
    ensures { IsLoaded sector.now result }
{
    if *sector == [0; 512] {
        return Loaded::Fresh;
    }
    let m = fields(sector);
    if is_kept(&m) && encode(&m) == *sector {
        Loaded::Is(m)
    } else {
        Loaded::Other
    }
}
