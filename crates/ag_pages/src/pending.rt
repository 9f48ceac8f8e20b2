//! Pages that wait to be written together.
ghost use Rattle.std.specs.Prelude.{◌≡◌, ◌<◌, ◌≤◌, ◌∷◌, ◌++◌, ◌==◌, [], length};

use std::marker::Model;

/// Up to eight pages. Contracts see them as a list.
#[derive(Drop)]
pub(crate) struct PageBatch {
    pages: [u16; 8],
    count: usize,
}

impl Model for PageBatch {
    ghost use Rattle.std.specs.Prelude.{List, ℕ, ◌≤◌, take};

    ghost Value = { List ℕ };

    ghost view = { λ b. take b.count b.pages };

    ghost invariant = { λ b. b.count ≤ 8 };
}

impl PageBatch {
    /// No pages.
    pub(crate) fn empty() -> PageBatch
        ensures { result ≡ [] }
    {
        PageBatch {
            pages: [0; 8],
            count: 0,
        }
    }

    /// How many pages there are.
    pub(crate) fn len(&self) -> usize
        ensures count { result ≡ length self.now }
        ensures few { result ≤ 8 }
    {
        self.count
    }

    /// One page more.
    pub(crate) fn push(&mut self, page: u16)
        requires { length self.old < 8 }
        ensures { self.new ≡ self.old ++ page ∷ [] }
    {
        self.pages[self.count] = page;
        self.count += 1;
    }

    /// The pages.
    pub(crate) fn as_slice(&self) -> &[u16]
        ensures { result.now ≡ self.now }
    {
        &self.pages[..self.count]
    }
}
