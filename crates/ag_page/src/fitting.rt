//! Which page values have an image.
ghost use Rattle.std.specs.Prelude.{◌≡◌, nat_le};
ghost use Rattle.std.specs.List.{list_all};
ghost use Rattle.ag_model.specs.Sizes.{change_size, versions_size};
ghost use Rattle.ag_page.specs.Spelling.{are_zero, has_spelling, rise, has_image};

use ag_model::value::{Change, PageValue, Version};

/// The bytes that a page has for its versions.
const ROOM: u32 = 8144;

/// Whether all bytes are zero.
pub(crate) fn are_zero(bytes: &[u8]) -> bool
    ensures { result ≡ are_zero bytes.now }
{
    bytes.iter().all(|b| *b == 0)
}

/// Whether a change has a spelling.
fn has_spelling(change: &Change) -> bool
    ensures { result ≡ has_spelling change.now }
{
    match change {
        Change::Put(value) => {
            let len = usize::from(value.len);
            len <= 64 && are_zero(&value.bytes[len..])
        }
        Change::Del => true,
    }
}

/// Whether the LSNs of versions rise.
pub(crate) fn rise(versions: &[Version]) -> bool
    ensures { result ≡ rise versions.now }
{
    let [first, rest @ ..] = versions else {
        return true;
    };
    let mut low = first.lsn;
    for version in rest {
        if version.lsn <= low {
            return false;
        }
        low = version.lsn;
    }
    true
}

/// How many bytes a change takes.
fn size(change: &Change) -> u32
    ensures { result ≡ change_size change.now }
{
    match change {
        Change::Put(value) => 30 + u32::from(value.len),
        Change::Del => 30,
    }
}

/// Whether versions take no more bytes than a page has.
fn have_room(versions: &[Version]) -> bool
    ensures { result ≡ nat_le (versions_size versions.now) 8144 }
{
    let mut free = ROOM;
    for version in versions {
        let need = size(&version.change);
        if need > free {
            return false;
        }
        free -= need;
    }
    true
}

/// Whether the values of versions have spellings.
fn are_spelled(versions: &[Version]) -> bool
    ensures { result ≡ list_all (λ w. has_spelling w.change) versions.now }
{
    versions.iter().all(|w| has_spelling(&w.change))
}

/// Whether a page value has an image: its versions stand in rising LSN, have spellings, and take at
/// most 8,144 bytes.
pub fn fits(v: &PageValue) -> bool
    ensures { result ≡ has_image v.now }
{
    let versions = v.versions.as_slice();
    are_spelled(versions) && rise(versions) && have_room(versions)
}
