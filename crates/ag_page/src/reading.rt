//! Page values from images.
ghost use Rattle.std.specs.Prelude.{◌≡◌, ◌≤◌, ℕ, length, true, Ok, IfOk};
ghost use Rattle.std.specs.Int.{w16, w32, w64};
ghost use Rattle.ag_model.specs.declared.value.PageValue.{PageValue};
ghost use Rattle.ag_page.specs.Image.{image_bytes};
ghost use Rattle.ag_page.specs.Spelling.{has_image, page_bytes, IsInRange};
ghost use Rattle.ag_page.specs.Reading.{Gives, Answers, number_at, value_of, change_at, version_at, versions_at, zeros_at, page_at};

use crate::fault::PageFault;
use crate::fitting::{are_zero, rise};
use crate::image::{Image, joined};
use ag_model::value::{Change, PageValue, Value, Version, VersionList};
use byteorder::{BigEndian, ByteOrder};
use std::alloc::Global;

/// The length that stands for a deletion.
const DELETION: u16 = 65535;

fn u16_at(b: &[u8]) -> Result<(u16, &[u8]), PageFault>
    ensures { Gives (λ x. (x.0, x.1.now)) result (number_at w16 b.now) }
{
    if b.len() < 2 {
        return Err(PageFault::NotPage);
    }
    let (front, rest) = b.split_at(2);
    Ok((BigEndian::read_u16(front), rest))
}

fn u32_at(b: &[u8]) -> Result<(u32, &[u8]), PageFault>
    ensures { Gives (λ x. (x.0, x.1.now)) result (number_at w32 b.now) }
{
    if b.len() < 4 {
        return Err(PageFault::NotPage);
    }
    let (front, rest) = b.split_at(4);
    Ok((BigEndian::read_u32(front), rest))
}

fn u64_at(b: &[u8]) -> Result<(u64, &[u8]), PageFault>
    ensures { Gives (λ x. (x.0, x.1.now)) result (number_at w64 b.now) }
{
    if b.len() < 8 {
        return Err(PageFault::NotPage);
    }
    let (front, rest) = b.split_at(8);
    Ok((BigEndian::read_u64(front), rest))
}

/// The value of these bytes.
fn padded(text: &[u8]) -> Value
    requires { length text.now ≤ 64 }
    ensures { result ≡ value_of text.now }
{
    let len = text.len();
    let mut bytes = [0; 64];
    bytes[..len].copy_from_slice(text);
    Value {
        len: len as u8,
        bytes,
    }
}

#[tactic(auto, unfolding(crate::specs::Reading::change_at))]
fn change_in(b: &[u8]) -> Result<(Change, &[u8]), PageFault>
    ensures { Gives (λ x. (x.0, x.1.now)) result (change_at b.now) }
{
    let (len, rest) = u16_at(b)?;
    if len == DELETION {
        return Ok((Change::Del, rest));
    }
    if len > 64 {
        return Err(PageFault::NotPage);
    }
    let count = usize::from(len);
    if rest.len() < count {
        return Err(PageFault::NotPage);
    }
    let (text, rest) = rest.split_at(count);
    Ok((Change::Put(padded(text)), rest))
}

#[tactic(auto, unfolding(crate::specs::Reading::version_at))]
fn version_in(b: &[u8]) -> Result<(Version, &[u8]), PageFault>
    ensures { Gives (λ x. (x.0, x.1.now)) result (version_at b.now) }
{
    let (lsn, rest) = u64_at(b)?;
    let (txn, rest) = u64_at(rest)?;
    let (commit, rest) = u64_at(rest)?;
    let (key, rest) = u32_at(rest)?;
    let (change, rest) = change_in(rest)?;
    let version = Version {
        lsn,
        txn,
        commit,
        key,
        change,
    };
    Ok((version, rest))
}

fn versions_in(alloc: Global, count: u16, b: &[u8]) -> Result<(Vec<Version>, &[u8]), PageFault>
    ensures { Gives (λ x. (x.0.items, x.1.now)) result (versions_at count b.now) }
{
    let mut versions = Vec::new(alloc);
    let mut rest = b;
    for _ in 0..count {
        let (version, after) = version_in(rest)?;
        versions.push(version)?;
        rest = after;
    }
    Ok((versions, rest))
}

#[tactic(auto, unfolding(crate::specs::Reading::zeros_at))]
fn after_zeros(count: usize, b: &[u8]) -> Result<&[u8], PageFault>
    ensures { Gives (λ x. x.now) result (zeros_at count b.now) }
{
    if b.len() < count {
        return Err(PageFault::NotPage);
    }
    let (front, rest) = b.split_at(count);
    if !are_zero(front) {
        return Err(PageFault::NotPage);
    }
    Ok(rest)
}

#[tactic(auto, unfolding(crate::specs::Reading::page_at))]
fn page_in(alloc: Global, b: &[u8]) -> Result<PageValue, PageFault>
    ensures { Answers result (page_at b.now) }
{
    let (page, rest) = u16_at(b)?;
    let (count, rest) = u16_at(rest)?;
    let (lsn, rest) = u64_at(rest)?;
    let (horizon, rest) = u64_at(rest)?;
    let rest = after_zeros(12, rest)?;
    let (versions, rest) = versions_in(alloc, count, rest)?;
    if !rise(&versions) || !are_zero(rest) {
        return Err(PageFault::NotPage);
    }
    Ok(PageValue {
        page,
        lsn,
        horizon,
        versions: VersionList::from_vec(versions),
    })
}

/// The page that all of these bytes are.
fn page_of(alloc: Global, b: &[u8]) -> Result<PageValue, PageFault>
    requires { length b.now ≡ 8176 }
    ensures fits { IfOk result (λ v. has_image v ≡ true) }
    ensures range { IfOk result (λ v. IsInRange v) }
    ensures bytes { IfOk result (λ v. b.now ≡ page_bytes v) }
    ensures only { (v : PageValue) → has_image v ≡ true → IsInRange v → b.now ≡ page_bytes v → Answers result (Ok v) }
    ensures exact { Answers result (page_at b.now) }
{
    page_in(alloc, b)
}

/// The page value of an image, whatever its marks are. An image of zeros alone is the empty page
/// of the number 0.
pub fn from_image(alloc: Global, i: &Image) -> Result<PageValue, PageFault>
    // What is read has these bytes.
    ensures fits { IfOk result (λ v. has_image v ≡ true) }
    ensures range { IfOk result (λ v. IsInRange v) }
    ensures bytes { IfOk result (λ v. image_bytes i.now ≡ page_bytes v) }

    // What has these bytes is read, unless memory runs out: so NotPage says that no page value has them.
    ensures only { (v : PageValue) → has_image v ≡ true → IsInRange v → image_bytes i.now ≡ page_bytes v → Answers result (Ok v) }

    // It is what reading the bytes from left to right gives.
    ensures exact { Answers result (page_at (image_bytes i.now)) }
{
    page_of(alloc, &joined(i))
}
