//! Page values to images.
ghost use Rattle.std.specs.Prelude.{◌≡◌, ◌++◌, ◌+◌, ◌≤◌, ◌<◌, true, length, take, drop};
ghost use Rattle.std.specs.Int.{w16, w32, w64, to_be_bytes};
ghost use Rattle.ag_model.specs.Sizes.{change_size};
ghost use Rattle.ag_page.specs.Image.{image};
ghost use Rattle.ag_page.specs.Spelling.{change_spelling, version_spelling, header, page_bytes, has_spelling, has_image};

use crate::image::{Image, PageBytes, cut, write_at};
use ag_model::value::{Change, PageValue, Version};
use byteorder::{BigEndian, ByteOrder};

/// The length that stands for a deletion.
const DELETION: u16 = 65535;

/// What stands before the versions.
#[tactic(auto, unfolding(crate::specs::Spelling::header))]
fn header(v: &PageValue) -> [u8; 32]
    requires { length v.now.versions < 65536 }
    ensures { result ≡ header v.now }
{
    let mut bytes = [0; 32];
    BigEndian::write_u16(&mut bytes, v.page);
    BigEndian::write_u16(&mut bytes[2..], v.versions.len() as u16);
    BigEndian::write_u64(&mut bytes[4..], v.lsn);
    BigEndian::write_u64(&mut bytes[12..], v.horizon);
    bytes
}

/// What stands before the bytes of a version's value; the length is that of the value or a deletion.
fn version_header(w: &Version, len: u16) -> [u8; 30]
    ensures { result ≡ to_be_bytes w64 w.now.lsn ++ (to_be_bytes w64 w.now.txn ++ (to_be_bytes w64 w.now.commit ++ (to_be_bytes w32 w.now.key ++ to_be_bytes w16 len))) }
{
    let mut bytes = [0; 30];
    BigEndian::write_u64(&mut bytes, w.lsn);
    BigEndian::write_u64(&mut bytes[8..], w.txn);
    BigEndian::write_u64(&mut bytes[16..], w.commit);
    BigEndian::write_u32(&mut bytes[24..], w.key);
    BigEndian::write_u16(&mut bytes[28..], len);
    bytes
}

/// Writes a version at a place, and gives the place after it.
#[tactic(auto, unfolding(crate::specs::Spelling::version_spelling))]
fn write_version(bytes: &mut PageBytes, at: usize, w: &Version) -> usize
    requires spelled { has_spelling w.now.change ≡ true }
    requires room { at + change_size w.now.change ≤ 8176 }
    ensures size { length (version_spelling w.now) ≡ change_size w.now.change }
    ensures place { result ≡ at + change_size w.now.change }
    ensures bytes { bytes.new ≡ take at bytes.old ++ (version_spelling w.now ++ drop (at + change_size w.now.change) bytes.old) }
{
    match &w.change {
        Change::Put(value) => {
            let at = write_at(bytes, at, &version_header(w, u16::from(value.len)));
            write_at(bytes, at, &value.bytes[..usize::from(value.len)])
        }
        Change::Del => write_at(bytes, at, &version_header(w, DELETION)),
    }
}

/// The bytes of a page.
fn page_bytes(v: &PageValue) -> PageBytes
    requires { has_image v.now ≡ true }
    ensures { result ≡ page_bytes v.now }
{
    let mut bytes = [0; 8176];
    let mut at = write_at(&mut bytes, 0, &header(v));
    for version in v.versions.as_slice() {
        at = write_version(&mut bytes, at, version);
    }
    bytes
}

/// Writes the image of a page value, with this mark in each of its 16 sectors.
pub fn to_image(v: &PageValue, mark: u8, out: &mut Image)
    requires { has_image v.now ≡ true }
    ensures { out.new ≡ image mark (page_bytes v.now) }
{
    cut(&page_bytes(v), mark, out);
}
