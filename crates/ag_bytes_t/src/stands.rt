//! A stripe as small as can be, and what it stands for.
ghost use Rattle.std.specs.Prelude.{◌≡◌, ◌<◌, ◌≤◌, [], false, refl};
ghost use Rattle.ag_model.specs.declared.value.PageValue.{PageValue};
ghost use Rattle.ag_model.specs.Stripes.{Standing, IsOpeningStripe};

use ag_model::stands::Stands;
use std::alloc::{AllocError, Global};

// A stripe with the opening log, whose pages are empty.
#[derive(Drop)]
struct Still {
    number: u8,
    pages: u16,
    ghost low: { 16 ≤ pages },
    ghost high: { pages ≤ 2048 },
}

impl Stands for Still {
    ghost standing = { λ s. record {
      number = s.number;
      pages = s.pages;
      opening = 1;
      applied = 1;
      value = λ page. record { page = page; lsn = 0; horizon = 0; versions = [] };
      is_bad = λ page. false;
      is_pending = λ page. false;
    } };

    ghost may_be_bad = { false };

    ghost none_bad = { λ e s page. refl };

    fn opening(&self) -> u64 {
        1
    }

    fn applied(&self) -> u64 {
        1
    }

    fn pages(&self) -> u16 {
        self.pages
    }
}

// The least stripe is one that opens: the clause is what is tried here.
#[tactic(auto, unfolding(ag_model::specs::Page::value))]
fn opening_stripe(number: u8, pages: u16) -> Still
    requires { (16 ≤ pages) × (pages ≤ 2048) }
    ensures { IsOpeningStripe number pages (⟦<Still as Stands>⟧.standing result) }
{
    Still { number, pages }
}

/// The number of a stripe that opens, its opening and its applied LSN, and its pages.
pub fn opened(alloc: Global) -> Result<String, AllocError> {
    let stripe = opening_stripe(5, 16);
    format!(in alloc;
        "{} {} {} {}",
        stripe.number,
        stripe.opening(),
        stripe.applied(),
        stripe.pages()
    )
}
