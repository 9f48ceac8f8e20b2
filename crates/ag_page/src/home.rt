//! Where the images of pages are at home.
ghost use Rattle.std.specs.Prelude.{◌≡◌, ◌≤◌, ◌++◌, ◌∷◌, [], ℕ, List, Bool, true, Option, Some, Ok, Err, IfOk, OnOk, IfSome, is_err};
ghost use Rattle.ag_page.specs.declared.home.Got.TheVariants.{Sound};
ghost use Rattle.ag_page.specs.declared.home.HomeError.TheVariants.{Failed, NoMemory};
ghost use Rattle.ag_page.specs.Home.{HasRisen, found, readable, with_page, PutBack};

use crate::image::Image;

/// What the image of a page is found to be.
#[derive(Clone, Copy, Debug, PartialEq, Eq)]
pub enum Got {
    /// No sector is lost, and all marks are equal.
    Sound,
    /// No sector is lost, and the marks differ.
    Torn,
    /// A sector is lost.
    Lost,
}

/// Why a home refuses.
#[derive(Clone, Copy, Debug, PartialEq, Eq)]
pub enum HomeError {
    /// What it stands on failed.
    Failed,
    /// Memory was refused.
    NoMemory,
}

/// A home of pages' images. It has certain pages, which no call changes.
pub trait PageHome {
    /// Whether it has a page.
    ghost has_page: { Self → ℕ → Bool };

    /// The sectors of each page's image, where it tells them. A lost sector is nothing.
    ghost told: { Self → Option (ℕ → List (Option (List ℕ))) };

    /// How often it has failed.
    ghost faults: { Self → ℕ };

    /// How often it was refused memory.
    ghost refusals: { Self → ℕ };

    /// What it leaves of itself by some writings, in their order.
    ghost leaves: { Self → List PutBack → Self → Type 0 };

    /// Reads the image of a page. The buffer has it where the answer is Sound.
    fn fetch(&mut self, page: u16, into: &mut Image) -> Result<Got, HomeError>
        requires { has_page self.old page ≡ true }
        ensures got { IfOk result (λ g. IfSome (told self.old) (λ images. g ≡ found (images page))) }
        ensures image { result ≡ Ok Sound → IfSome (told self.old) (λ images. images page ≡ readable into.new) }

        // No image and no page changes, and the counts never fall.
        ensures told { told self.new ≡ told self.old }
        ensures pages { has_page self.new ≡ has_page self.old }
        ensures faults { faults self.old ≤ faults self.new }
        ensures refusals { refusals self.old ≤ refusals self.new }
        ensures leaves { leaves self.old [] self.new }

        // Each error has its count.
        ensures failed { result ≡ Err Failed → HasRisen (faults self.old) (faults self.new) }
        ensures no_memory { result ≡ Err NoMemory → HasRisen (refusals self.old) (refusals self.new) };

    /// Writes the image of a page. Its marks become those of the next write over the old image.
    fn put_back(&mut self, page: u16, image: &Image) -> Result<(), HomeError>
        requires { has_page self.old page ≡ true }
        ensures told { OnOk result (IfSome (told self.old) (λ images. told self.new ≡ Some (with_page images page image.now))) }
        ensures pages { has_page self.new ≡ has_page self.old }
        ensures faults { faults self.old ≤ faults self.new }
        ensures refusals { refusals self.old ≤ refusals self.new }
        ensures leaves { leaves self.old (record { page = page; image = image.now; refused = is_err result } ∷ []) self.new }

        // Each error has its count.
        ensures failed { result ≡ Err Failed → HasRisen (faults self.old) (faults self.new) }
        ensures no_memory { result ≡ Err NoMemory → HasRisen (refusals self.old) (refusals self.new) };

    /// A home leaves itself where nothing is written.
    ghost leaves_itself: { (a : Self) → leaves a [] a };

    /// What is left by two steps is left by the writings of both.
    ghost leaves_both: { (a b c : Self) (xs ys : List PutBack) → leaves a xs b → leaves b ys c → leaves a (xs ++ ys) c };
}
