//! Parts of the bytes of a page, in an image that has a mark behind each 511 of them.
ghost use Rattle.std.specs.Prelude.{◌≡◌, ◌+◌, ◌-◌, ◌%◌, ◌<◌, ◌≤◌, ◌++◌, length, take, drop};
ghost use Rattle.ag_page.specs.Image.{image_bytes, marks};

use ag_page::Image;

/// The bytes of a sector that stand before its mark.
const PART: usize = 511;

/// The bytes of a page from a place to the end of its sector.
fn rest_of_sector(i: &Image, at: usize) -> &[u8]
    requires whole { length (image_bytes i.now) ≡ 8176 }
    requires place { at < 8176 }
    ensures bytes { result.now ≡ take (511 - at % 511) (drop at (image_bytes i.now)) }
    ensures len { length result.now ≡ 511 - at % 511 }
{
    &i[at / PART][at % PART..PART]
}

/// Reads a part of the bytes of a page, from a place on.
pub(crate) fn read_part(i: &Image, at: usize, out: &mut [u8])
    requires whole { length (image_bytes i.now) ≡ 8176 }
    requires room { at + length out.old ≤ 8176 }
    requires short { length out.old ≤ 511 }
    ensures { out.new ≡ take (length out.old) (drop at (image_bytes i.now)) }
{
    if out.is_empty() {
        return;
    }
    let part = rest_of_sector(i, at);
    let count = part.len().min(out.len());
    let (front, back) = out.split_at_mut(count);
    front.copy_from_slice(&part[..count]);
    if !back.is_empty() {
        let part = rest_of_sector(i, at + count);
        back.copy_from_slice(&part[..back.len()]);
    }
}

/// So many bytes of a page, from a place on.
pub(crate) fn bytes_in<const N: usize>(i: &Image, at: usize) -> [u8; N]
    requires whole { length (image_bytes i.now) ≡ 8176 }
    requires some { 0 < N }
    requires room { at + N ≤ 8176 }
    requires short { N ≤ 511 }
    ensures { result ≡ take N (drop at (image_bytes i.now)) }
{
    let mut bytes = [0; N];
    let place = at % PART;
    if place + N <= PART {
        bytes.copy_from_slice(&i[at / PART][place..place + N]);
        return bytes;
    }
    read_part(i, at, &mut bytes);
    bytes
}

/// Writes a part of a sector that ends before its mark.
fn write_at(sector: &mut [u8; 512], place: usize, part: &[u8])
    requires { place + length part.now ≤ 511 }
    ensures { sector.new ≡ take place sector.old ++ (part.now ++ drop (place + length part.now) sector.old) }
{
    sector[place..place + part.len()].copy_from_slice(part);
}

/// Writes a part that ends before the mark of its sector.
fn write_in_sector(i: &mut Image, at: usize, part: &[u8])
    requires whole { length (image_bytes i.old) ≡ 8176 }
    requires place { at < 8176 }
    requires short { at % 511 + length part.now ≤ 511 }
    ensures bytes { image_bytes i.new ≡ take at (image_bytes i.old) ++ (part.now ++ drop (at + length part.now) (image_bytes i.old)) }
    ensures marks { marks i.new ≡ marks i.old }
{
    write_at(&mut i[at / PART], at % PART, part);
}

/// Writes a part of the bytes of a page, from a place on. The marks stay.
pub(crate) fn write_part(i: &mut Image, at: usize, part: &[u8])
    requires whole { length (image_bytes i.old) ≡ 8176 }
    requires room { at + length part.now ≤ 8176 }
    requires short { length part.now ≤ 511 }
    ensures bytes { image_bytes i.new ≡ take at (image_bytes i.old) ++ (part.now ++ drop (at + length part.now) (image_bytes i.old)) }
    ensures marks { marks i.new ≡ marks i.old }
{
    if part.is_empty() {
        return;
    }
    let count = part.len().min(PART - at % PART);
    write_in_sector(i, at, &part[..count]);
    if count < part.len() {
        write_in_sector(i, at + count, &part[count..]);
    }
}
