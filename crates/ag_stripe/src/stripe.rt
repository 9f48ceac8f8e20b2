//! A stripe, which is lent the home of its images and taken back.
ghost use Rattle.std.specs.Prelude.{◌≡◌, ◌<◌, ◌≤◌, ℕ, ◌==◌, true, false, if◌then◌else◌, IfOk};
ghost use Rattle.ag_stripe.specs.Tables.{is_own, empty_slot, slot_of, is_dirty, dirty_pages, IsSameTable};

use crate::table::PageTable;
use ag_model::page_set::PageSet;
use ag_model::value::NoMemory;
use ag_page::PageHome;
use std::alloc::Global;
use std::marker::Model;

/// The place of a home that isn't there.
#[derive(Clone, Copy, Debug)]
pub struct Away;

/// One stripe's pages. It stands for a prefix of a log, which ends at the applied LSN; it keeps no records.
#[derive(Drop)]
pub struct Stripe<H> {
    pub(crate) table: PageTable,
    pub(crate) opening: u64,
    pub(crate) applied: u64,
    pub(crate) home: H,
    pub(crate) alloc: Global,
}

impl<H> Model for Stripe<H> {
    ghost use Rattle.std.specs.Prelude.{◌≤◌};
    ghost use Rattle.ag_stripe.specs.View.{StripeView};

    ghost Value = { StripeView H };

    ghost view = { λ s. record { table = s.table; opening = s.opening; applied = s.applied; home = s.home } };

    ghost invariant = { λ s. s.opening ≤ s.applied };
}

impl Stripe<Away> {
    /// A stripe with clean pages, none of which is read in. The stripe is below 16, the database has 16 to
    /// 2,048 data pages, and both LSNs are block ends.
    pub fn new(
        alloc: Global,
        stripe: u8,
        pages: u16,
        applied: u64,
        opening: u64,
    ) -> Result<Stripe<Away>, NoMemory>
        requires stripe { stripe < 16 }
        requires low { 16 ≤ pages }
        requires high { pages ≤ 2048 }
        requires opening { opening ≤ applied }
        ensures number { IfOk result (λ s. s.table.number ≡ stripe) }
        ensures pages { IfOk result (λ s. s.table.pages ≡ pages) }
        ensures applied { IfOk result (λ s. s.applied ≡ applied) }
        ensures opening { IfOk result (λ s. s.opening ≡ opening) }
        ensures empty { IfOk result (λ s. (page : ℕ) → slot_of s.table page ≡ empty_slot) }
    {
        let table = PageTable::new(alloc, stripe, pages)?;
        Ok(Stripe {
            table,
            opening,
            applied,
            home: Away,
            alloc,
        })
    }

    /// The stripe with a home.
    pub fn lend<H: PageHome>(self, home: H) -> Stripe<H>
        ensures table { result.table ≡ self.table }
        ensures applied { result.applied ≡ self.applied }
        ensures opening { result.opening ≡ self.opening }
        ensures home { result.home ≡ home }
    {
        let Stripe {
            table,
            opening,
            applied,
            alloc,
            ..
        } = self;
        Stripe {
            table,
            opening,
            applied,
            home,
            alloc,
        }
    }
}

impl<H: PageHome> Stripe<H> {
    /// The stripe without its home, and the home.
    pub fn take_back(self) -> (Stripe<Away>, H)
        ensures table { result.0.table ≡ self.table }
        ensures applied { result.0.applied ≡ self.applied }
        ensures opening { result.0.opening ≡ self.opening }
        ensures home { result.1 ≡ self.home }
    {
        let Stripe {
            table,
            opening,
            applied,
            home,
            alloc,
        } = self;
        let stripe = Stripe {
            table,
            opening,
            applied,
            home: Away,
            alloc,
        };
        (stripe, home)
    }
}

impl<H> Stripe<H> {
    /// How many data pages the database has.
    pub fn pages(&self) -> u16
        ensures answer { result ≡ self.now.table.pages }
        ensures low { 16 ≤ result }
        ensures high { result ≤ 2048 }
    {
        self.table.pages()
    }

    /// Whether a page is one of the stripe's.
    pub fn owns(&self, page: u16) -> bool
        ensures { result ≡ is_own self.now.table page }
    {
        self.table.owns(page)
    }

    /// The applied LSN.
    pub fn applied(&self) -> u64
        ensures { result ≡ self.now.applied }
    {
        self.applied
    }

    /// Whether a page was changed since its image was written.
    pub fn is_dirty(&self, page: u16) -> bool
        requires { is_own self.now.table page ≡ true }
        ensures { result ≡ is_dirty self.now.table page }
    {
        self.table.is_dirty(page)
    }

    /// The dirty pages: those that redo touched since their images were written.
    pub fn dirty(&self) -> PageSet
        ensures { result ≡ dirty_pages self.now.table }
    {
        self.table.dirty()
    }

    /// Says that the image of a page was written.
    pub fn cleaned(&mut self, page: u16)
        requires { is_own self.old.table page ≡ true }
        ensures same { IsSameTable self.old.table self.new.table }
        ensures values { (q : ℕ) → (slot_of self.new.table q).value ≡ (slot_of self.old.table q).value }
        ensures dirty { (q : ℕ) → is_dirty self.new.table q ≡ (if q == page then false else is_dirty self.old.table q) }
        ensures applied { self.new.applied ≡ self.old.applied }
        ensures opening { self.new.opening ≡ self.old.opening }
        ensures home { self.new.home ≡ self.old.home }
    {
        self.table.clean(page);
    }
}
