//! The fields of a version in the bytes of a page.
ghost use Rattle.std.specs.Prelude.{◌≡◌, ◌+◌, ◌≤◌, length, take, drop};
ghost use Rattle.std.specs.Int.{w16, w32, w64};
ghost use Rattle.ag_model.specs.declared.value.Version.{Version};
ghost use Rattle.ag_model.specs.Page.{is_del};
ghost use Rattle.ag_model.specs.Sizes.{change_size};
ghost use Rattle.ag_page.specs.Image.{image_bytes};
ghost use Rattle.ag_page.specs.Reading.{value_of};
ghost use Rattle.ag_inplace.specs.Entries.{number_in, StandsAt, IsEntry};

use crate::parts::{bytes_in, read_part};
use ag_model::value::{Change, Value, Version};
use ag_page::Image;

/// The length that stands for a deletion.
pub(crate) const DELETION: u16 = 65535;

/// The number of 2 bytes at a place.
pub(crate) fn u16_in(i: &Image, at: usize) -> u16
    requires whole { length (image_bytes i.now) ≡ 8176 }
    requires room { at + 2 ≤ 8176 }
    ensures { result ≡ number_in w16 (image_bytes i.now) at }
{
    u16::from_be_bytes(bytes_in::<2>(i, at))
}

/// The number of 4 bytes at a place.
fn u32_in(i: &Image, at: usize) -> u32
    requires whole { length (image_bytes i.now) ≡ 8176 }
    requires room { at + 4 ≤ 8176 }
    ensures { result ≡ number_in w32 (image_bytes i.now) at }
{
    u32::from_be_bytes(bytes_in::<4>(i, at))
}

/// The number of 8 bytes at a place.
pub(crate) fn u64_in(i: &Image, at: usize) -> u64
    requires whole { length (image_bytes i.now) ≡ 8176 }
    requires room { at + 8 ≤ 8176 }
    ensures { result ≡ number_in w64 (image_bytes i.now) at }
{
    u64::from_be_bytes(bytes_in::<8>(i, at))
}

/// How many bytes the version at a place takes.
pub(crate) fn size_in(i: &Image, at: usize) -> u16
    requires { IsEntry (image_bytes i.now) at }
    ensures { (w : Version) → StandsAt (image_bytes i.now) at w → result ≡ change_size w.change }
{
    let len = u16_in(i, at + 28);
    if len == DELETION { 30 } else { 30 + len }
}

/// The LSN of the version at a place.
pub(crate) fn lsn_in(i: &Image, at: usize) -> u64
    requires { IsEntry (image_bytes i.now) at }
    ensures { (w : Version) → StandsAt (image_bytes i.now) at w → result ≡ w.lsn }
{
    u64_in(i, at)
}

/// The transaction of the version at a place.
pub(crate) fn txn_in(i: &Image, at: usize) -> u64
    requires { IsEntry (image_bytes i.now) at }
    ensures { (w : Version) → StandsAt (image_bytes i.now) at w → result ≡ w.txn }
{
    u64_in(i, at + 8)
}

/// The LSN of the Commit of the version at a place, or 0.
pub(crate) fn commit_in(i: &Image, at: usize) -> u64
    requires { IsEntry (image_bytes i.now) at }
    ensures { (w : Version) → StandsAt (image_bytes i.now) at w → result ≡ w.commit }
{
    u64_in(i, at + 16)
}

/// The key of the version at a place.
pub(crate) fn key_in(i: &Image, at: usize) -> u32
    requires { IsEntry (image_bytes i.now) at }
    ensures { (w : Version) → StandsAt (image_bytes i.now) at w → result ≡ w.key }
{
    u32_in(i, at + 24)
}

/// Whether the version at a place deletes its key.
pub(crate) fn is_del_in(i: &Image, at: usize) -> bool
    requires { IsEntry (image_bytes i.now) at }
    ensures { (w : Version) → StandsAt (image_bytes i.now) at w → result ≡ is_del w.change }
{
    u16_in(i, at + 28) == DELETION
}

/// The value of so many bytes from a place on.
fn value_in(i: &Image, at: usize, len: usize) -> Value
    requires whole { length (image_bytes i.now) ≡ 8176 }
    requires room { at + len ≤ 8176 }
    requires short { len ≤ 64 }
    ensures { result ≡ value_of (take len (drop at (image_bytes i.now))) }
{
    let mut bytes = [0; 64];
    read_part(i, at, &mut bytes[..len]);
    Value {
        len: len as u8,
        bytes,
    }
}

/// The change of the version at a place.
fn change_in(i: &Image, at: usize) -> Change
    requires { IsEntry (image_bytes i.now) at }
    ensures { (w : Version) → StandsAt (image_bytes i.now) at w → result ≡ w.change }
{
    let len = u16_in(i, at + 28);
    if len == DELETION {
        return Change::Del;
    }
    Change::Put(value_in(i, at + 30, usize::from(len)))
}

/// The version at a place.
pub(crate) fn version_in(i: &Image, at: usize) -> Version
    requires { IsEntry (image_bytes i.now) at }
    ensures { (w : Version) → StandsAt (image_bytes i.now) at w → result ≡ w }
{
    Version {
        lsn: lsn_in(i, at),
        txn: txn_in(i, at),
        commit: commit_in(i, at),
        key: key_in(i, at),
        change: change_in(i, at),
    }
}
