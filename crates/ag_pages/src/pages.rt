//! The pages of a replica.
ghost use Rattle.std.specs.Prelude.{◌≡◌, ◌==◌, ◌<◌, ◌≤◌, ℕ, true, false, replicate, if◌then◌else◌, IfOk};
ghost use Rattle.ag_rules.specs.Replica.{least};
ghost use Rattle.ag_stripe.specs.Tables.{empty_slot};
ghost use Rattle.ag_pages.specs.Views.{slot, applied_of, is_dirty, is_page};

use crate::places::{Places, fresh, put_in, take_out};
use ag_model::value::NoMemory;
use std::alloc::Global;
use std::marker::Model;

/// The data pages of a replica, in 16 stripes. Their images are on a disk, which a call that needs it is lent.
#[derive(Drop)]
pub struct Pages {
    pub(crate) count: u16,
    pub(crate) places: Places,
}

impl Model for Pages {
    ghost use Rattle.ag_pages.specs.Views.{PagesView, ArePlaces, pages_view};

    ghost Value = { PagesView };

    ghost view = { λ p. pages_view p.count p.places.items };

    ghost invariant = { λ p. ArePlaces p.count p.places.items };
}

impl Pages {
    /// The pages of a replica that has redone its log to this LSN. None is read in. There are 16 to 2,048 data pages.
    pub fn new(alloc: Global, pages: u16, applied: u64) -> Result<Pages, NoMemory>
        requires low { 16 ≤ pages }
        requires high { pages ≤ 2048 }
        ensures count { IfOk result (λ p. p.count ≡ pages) }
        ensures applied { IfOk result (λ p. p.applied ≡ replicate 16 applied) }
        ensures empty { IfOk result (λ p. (page : ℕ) → slot p page ≡ empty_slot) }
    {
        let places = fresh(alloc, pages, applied)?;
        Ok(Pages {
            count: pages,
            places,
        })
    }

    /// How many data pages there are.
    pub fn count(&self) -> u16
        ensures answer { result ≡ self.now.count }
        ensures low { 16 ≤ result }
        ensures high { result ≤ 2048 }
    {
        let _ = &self.places;
        self.count
    }

    /// The LSN to which a stripe was redone.
    pub fn applied(&self, stripe: u8) -> u64
        requires { stripe < 16 }
        ensures { result ≡ applied_of self.now stripe }
    {
        match &self.places[usize::from(stripe)] {
            Some(stripe) => stripe.applied(),
            None => unreachable!(),
        }
    }

    /// The least LSN to which a stripe was redone.
    pub fn least_applied(&self) -> u64
        ensures { result ≡ least self.now.applied }
    {
        let _ = &self.count;
        let mut least = self.applied(0);
        for stripe in 1..16 {
            least = least.min(self.applied(stripe));
        }
        least
    }

    /// Whether a page was changed since its image was written.
    pub fn is_dirty(&self, page: u16) -> bool
        requires { is_page self.now page ≡ true }
        ensures { result ≡ is_dirty self.now page }
    {
        match &self.places[usize::from(page % 16)] {
            Some(stripe) => stripe.is_dirty(page),
            None => unreachable!(),
        }
    }

    /// Says that the image of a page was written.
    pub(crate) fn cleaned(&mut self, page: u16)
        requires { is_page self.old page ≡ true }
        ensures count { self.new.count ≡ self.old.count }
        ensures applied { self.new.applied ≡ self.old.applied }
        ensures values { (q : ℕ) → (slot self.new q).value ≡ (slot self.old q).value }
        ensures dirty { (q : ℕ) → is_dirty self.new q ≡ (if q == page then false else is_dirty self.old q) }
    {
        let number = (page % 16) as u8;
        let mut stripe = take_out(&mut self.places, number);
        stripe.cleaned(page);
        put_in(&mut self.places, number, stripe);
    }
}
