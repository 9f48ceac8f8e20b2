//! A home of images that refuses to write.
ghost use Rattle.std.specs.Prelude.{◌≡◌, ◌==◌, ℕ, List, Bool, true, Option, Some, slice_index};
ghost use Rattle.std.specs.List.{list_all};
ghost use Rattle.ag_page.specs.Home.{readable};

use crate::images;
use crate::words::{at, short};
use ag_page::{Got, HomeError, Image, PageHome, marks};

/// Whether all marks are the same.
fn all_same(marks: &[u8; 16]) -> bool
    ensures { result ≡ list_all (λ m. slice_index marks.now 0 == m) marks.now }
{
    marks.iter().all(|mark| marks[0] == *mark)
}

/// A home that has one image for all pages, and refuses to write.
#[derive(Drop)]
pub struct ReadOnly {
    image: Image,
    refusals: u64,
}

impl PageHome for ReadOnly {
    ghost has_page = { λ _ _. true };

    ghost told = { λ s. Some (λ _. readable s.image) };

    ghost faults = { λ _. 0 };

    ghost refusals = { λ s. s.refusals };

    ghost leaves = { λ _ _ _. Unit {0} };

    fn fetch(&mut self, _page: u16, into: &mut Image) -> Result<Got, HomeError> {
        *into = self.image;
        if all_same(&marks(&self.image)) {
            Ok(Got::Sound)
        } else {
            Ok(Got::Torn)
        }
    }

    fn put_back(&mut self, _page: u16, _image: &Image) -> Result<(), HomeError> {
        self.refusals = self.refusals.saturating_add(1);
        Err(HomeError::NoMemory)
    }

    ghost leaves_itself = { λ _. tt };

    ghost leaves_both = { λ _ _ _ _ _ _ _. tt };
}

/// A home whose image has this byte throughout.
pub fn filled(byte: u8) -> ReadOnly {
    ReadOnly {
        image: [[byte; 512]; 16],
        refusals: 0,
    }
}

/// Changes a byte of the home's image.
pub fn poke(home: &mut ReadOnly, n: &[u64]) {
    images::poke(&mut home.image, n);
}

/// Fetches a page.
pub fn fetch(home: &mut ReadOnly, n: &[u64], into: &mut Image) -> Result<Got, HomeError> {
    home.fetch(short(at(n, 0)), into)
}

/// Puts an image back. The answer is the home's, and how often it refused.
pub fn put_back(home: &mut ReadOnly, n: &[u64], image: &Image) -> (Result<(), HomeError>, u64) {
    let answer = home.put_back(short(at(n, 0)), image);
    (answer, home.refusals)
}
