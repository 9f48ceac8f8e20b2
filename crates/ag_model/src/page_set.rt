//! Sets of pages, a bit for each page that a database can have.
ghost use Rattle.std.specs.Prelude.{◌≡◌, ◌↔◌, ◌<◌, ◌≤◌, ◌==◌, ◌||◌, [], length, IsTrue};
ghost use Rattle.std.specs.List.{list_all};
ghost use Rattle.ag_model.specs.Rows.{contains};
ghost use Rattle.ag_model.specs.PageSets.{pages_where, has_bit, bytes_of};

use std::marker::Model;

/// A set of pages from 16 to 2063. Page 16 + i is bit `i % 8` of byte `i / 8`, counted from the
/// least. Contracts see the numbers of its pages, rising.
#[derive(Clone, Copy, Debug)]
pub struct PageSet {
    bytes: [u8; 256],
}

impl Model for PageSet {
    ghost use Rattle.std.specs.Prelude.{List, ℕ};
    ghost use Rattle.ag_model.specs.PageSets.{pages_where, has_bit, bytes_of, IsBitmap};
    ghost use Rattle.ag_model.specs.PageBits.{bytes_of-bits};
    ghost use Rattle.std.proofs.Common.{ap};

    ghost Value = { List ℕ };

    ghost view = { λ s. pages_where (has_bit s.bytes) };

    ghost invariant = { λ s. IsBitmap s.bytes };

    ghost inverse = { λ pages. record { bytes = bytes_of pages } };

    ghost inverse_ok = { λ a h. ap (λ bytes. record { bytes = bytes }) (bytes_of-bits a.bytes h) };
}

impl PageSet {
    /// The set with no page.
    pub fn empty() -> PageSet
        ensures { result ≡ [] }
    {
        PageSet { bytes: [0; 256] }
    }

    /// The set of the pages whose bits are set in these bytes.
    pub fn from_bytes(bytes: &[u8; 256]) -> PageSet
        ensures { result ≡ pages_where (has_bit bytes.now) }
    {
        let mut set = PageSet::empty();
        set.bytes.copy_from_slice(bytes);
        set
    }

    /// The bytes, in which the bit of each page of the set is set, and no other.
    pub fn to_bytes(&self) -> [u8; 256]
        ensures pages { pages_where (has_bit result) ≡ self.now }
        ensures exact { result ≡ bytes_of self.now }
    {
        self.bytes
    }

    /// Whether a page is in the set.
    pub fn has(&self, page: u16) -> bool
        requires low { 16 ≤ page }
        requires high { page < 2064 }
        ensures answer { result ≡ contains page self.now }
        ensures rising { pages_where (λ p. contains p self.now) ≡ self.now }
    {
        let place = (page - 16) as usize;
        (self.bytes[place / 8] >> (place % 8)) & 1 == 1
    }

    /// Puts a page into the set.
    pub fn insert(&mut self, page: u16)
        requires low { 16 ≤ page }
        requires high { page < 2064 }
        ensures { self.new ≡ pages_where (λ p. (p == page) || contains p self.old) }
    {
        let place = (page - 16) as usize;
        self.bytes[place / 8] |= 1 << (place % 8);
    }

    /// Whether the set has no page.
    pub fn is_empty(&self) -> bool
        ensures { IsTrue result ↔ (length self.now ≡ 0) }
    {
        all_zero(&self.bytes)
    }
}

/// Whether all bytes are zero.
fn all_zero(bytes: &[u8]) -> bool
    ensures { result ≡ list_all (λ b. b == 0) bytes.now }
{
    bytes.iter().all(|byte| *byte == 0)
}
