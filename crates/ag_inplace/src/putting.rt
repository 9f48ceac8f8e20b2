//! Versions that are put on in place.
ghost use Rattle.std.specs.Prelude.{◌≡◌, ◌+◌, ◌<◌, ◌≤◌, ◌++◌, Ok, Err, OnOk, OnErr, true, length, take, drop};
ghost use Rattle.std.specs.Int.{w16, w32, w64, to_be_bytes};
ghost use Rattle.ag_model.specs.declared.value.PageValue.{PageValue};
ghost use Rattle.ag_model.specs.Sizes.{change_size, free_bytes};
ghost use Rattle.ag_page.specs.Image.{image_bytes, marks};
ghost use Rattle.ag_page.specs.Spelling.{version_spelling, page_bytes, has_spelling, IsWhole};
ghost use Rattle.ag_version.specs.Edits.{after_change};
ghost use Rattle.ag_inplace.specs.Spelled.{Spells, IsPage, AreBelow};

use crate::directory::directory_of;
use crate::entries::DELETION;
use crate::header::{horizon_in, set_header};
use crate::parts::write_part;
use ag_model::value::{Change, Version};
use ag_page::Image;
use byteorder::{BigEndian, ByteOrder};

/// The version needs more bytes than the page has free. Both are numbers of bytes.
#[derive(Clone, Copy, Debug, PartialEq, Eq)]
pub struct PageFull {
    pub need: u32,
    pub free: u32,
}

/// How many bytes a page has.
const BYTES: u32 = 8176;

/// How many bytes a change takes on its page.
fn size(change: &Change) -> u32
    ensures { result ≡ change_size change.now }
{
    match change {
        Change::Put(value) => 30 + u32::from(value.len),
        Change::Del => 30,
    }
}

/// What stands before the bytes of a version's value; the length is that of the value or a deletion.
fn version_header(w: &Version, len: u16) -> [u8; 30]
    ensures { result ≡ to_be_bytes w64 w.now.lsn ++ (to_be_bytes w64 w.now.txn ++ (to_be_bytes w64 w.now.commit ++ (to_be_bytes w32 w.now.key ++ to_be_bytes w16 len))) }
{
    let mut bytes = [0; 30];
    BigEndian::write_u64(&mut bytes, w.lsn);
    BigEndian::write_u64(&mut bytes[8..], w.txn);
    BigEndian::write_u64(&mut bytes[16..], w.commit);
    BigEndian::write_u32(&mut bytes[24..], w.key);
    BigEndian::write_u16(&mut bytes[28..], len);
    bytes
}

/// So many of the bytes of a value.
fn text(bytes: &[u8; 64], len: usize) -> &[u8]
    requires { len ≤ 64 }
    ensures text { result.now ≡ take len bytes.now }
    ensures len { length result.now ≡ len }
    ensures whole { length bytes.now ≡ 64 }
{
    &bytes[..len]
}

/// Writes a version at a place.
#[tactic(auto, unfolding(ag_page::specs::Spelling::version_spelling))]
fn write_version(i: &mut Image, at: usize, w: &Version)
    requires whole { length (image_bytes i.old) ≡ 8176 }
    requires spelled { has_spelling w.now.change ≡ true }
    requires room { at + change_size w.now.change ≤ 8176 }
    ensures change { IsWhole w.now.change }
    ensures bytes { image_bytes i.new ≡ take at (image_bytes i.old) ++ (version_spelling w.now ++ drop (at + change_size w.now.change) (image_bytes i.old)) }
    ensures marks { marks i.new ≡ marks i.old }
{
    match &w.change {
        Change::Put(value) => {
            write_part(i, at, &version_header(w, u16::from(value.len)));
            write_part(i, at + 30, text(&value.bytes, usize::from(value.len)));
        }
        Change::Del => write_part(i, at, &version_header(w, DELETION)),
    }
}

/// Puts a version on the page of its key: what a Put or a Del at this LSN does. The value of the
/// change has zeros behind its bytes.
pub fn put_in(i: &mut Image, lsn: u64, txn: u64, key: u32, change: &Change) -> Result<(), PageFull>
    requires page { IsPage i.old }
    requires spelled { has_spelling change.now ≡ true }
    ensures ok { (v : PageValue) → Spells i.old v → OnOk result (image_bytes i.new ≡ page_bytes (after_change lsn txn key change.now v)) }
    ensures fits { (v : PageValue) → Spells i.old v → AreBelow lsn v.versions → OnOk result (Spells i.new (after_change lsn txn key change.now v)) }
    ensures room { (v : PageValue) → Spells i.old v → change_size change.now ≤ free_bytes v → result ≡ Ok tt }
    ensures full { (v : PageValue) → Spells i.old v → free_bytes v < change_size change.now → result ≡ Err (record { need = change_size change.now; free = free_bytes v }) }
    ensures err { OnErr result (i.new ≡ i.old) }
    ensures marks { marks i.new ≡ marks i.old }
{
    let d = directory_of(i);
    let end = d.places[usize::from(d.count)];
    let need = size(change);
    let free = BYTES - u32::from(end);
    if need > free {
        return Err(PageFull { need, free });
    }
    let version = Version {
        lsn,
        txn,
        commit: 0,
        key,
        change: *change,
    };
    let horizon = horizon_in(i);
    write_version(i, usize::from(end), &version);
    set_header(i, d.count + 1, lsn, horizon);
    Ok(())
}
