//! The sectors of an image.
ghost use Rattle.std.specs.Prelude.{◌≡◌, ◌++◌, ◌∷◌, ◌+◌, ◌≤◌, [], length, take, drop};
ghost use Rattle.ag_page.specs.Image.{image, image_bytes, marks};

/// The 16 sectors of a page. The last byte of each is its mark.
pub type Image = [[u8; 512]; 16];

/// The bytes of a page, in order, without marks.
pub(crate) type PageBytes = [u8; 8176];

/// Writes a part at a place, and gives the place after it.
pub(crate) fn write_at(bytes: &mut PageBytes, at: usize, part: &[u8]) -> usize
    requires { at + length part.now ≤ 8176 }
    ensures place { result ≡ at + length part.now }
    ensures bytes { bytes.new ≡ take at bytes.old ++ (part.now ++ drop (at + length part.now) bytes.old) }
{
    let end = at + part.len();
    bytes[at..end].copy_from_slice(part);
    end
}

/// One sector.
fn sector(part: &[u8], mark: u8) -> [u8; 512]
    requires { length part.now ≡ 511 }
    ensures { result ≡ part.now ++ mark ∷ [] }
{
    let mut bytes = [mark; 512];
    bytes[..511].copy_from_slice(part);
    bytes
}

/// Cuts the bytes of a page into sectors.
pub(crate) fn cut(bytes: &PageBytes, mark: u8, out: &mut Image)
    ensures { out.new ≡ image mark bytes.now }
{
    for (i, place) in out.iter_mut().enumerate() {
        *place = sector(&bytes[511 * i..511 * i + 511], mark);
    }
}

/// A sector without its mark.
fn part(sector: &[u8; 512]) -> &[u8]
    ensures bytes { result.now ≡ take 511 sector.now }
    ensures len { length result.now ≡ 511 }
{
    &sector[..511]
}

/// The bytes of a page, from its sectors.
pub(crate) fn joined(image: &Image) -> PageBytes
    ensures { result ≡ image_bytes image.now }
{
    let mut bytes = [0; 8176];
    let mut at = 0;
    for sector in image {
        at = write_at(&mut bytes, at, part(sector));
    }
    bytes
}

/// The marks of an image.
pub fn marks(i: &Image) -> [u8; 16]
    ensures { result ≡ marks i.now }
{
    let mut marks = [0; 16];
    for (place, sector) in i.iter().enumerate() {
        marks[place] = sector[511];
    }
    marks
}
