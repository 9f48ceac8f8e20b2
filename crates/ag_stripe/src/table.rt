//! What memory keeps of the pages of one stripe.
ghost use Rattle.std.specs.Prelude.{◌≡◌, ◌<◌, ◌≤◌, ℕ, ◌==◌, ◌&&◌, ◌/◌, ◌-◌, true, false, length, replicate, if◌then◌else◌, Some, None, IfOk, OnOk, IfErr};
ghost use Rattle.ag_model.specs.PageSets.{pages_where};
ghost use Rattle.ag_model.specs.Rows.{touches};
ghost use Rattle.ag_stripe.specs.Tables.{is_own, empty_slot, slot_of, is_dirty, is_dirty_at, dirty_pages, IsSameTable};
ghost use Rattle.ag_stripe.specs.Redo.{IsKept, OnlyEdits, redone_slot, IsRefusal};

use crate::fault::StripeFault;
use crate::slot::Slot;
use ag_model::page_set::PageSet;
use ag_model::record::Record;
use ag_model::value::{NoMemory, PageValue};
use ag_version::PutFault;
use std::alloc::Global;
use std::marker::Model;

/// A slot for each page of a stripe, rising. Page 16 + n + 16 i is at place i in the stripe of number n.
#[derive(Debug, Drop)]
pub struct PageTable {
    number: u8,
    pages: u16,
    slots: Vec<Slot>,
}

impl Model for PageTable {
    ghost use Rattle.ag_stripe.specs.Tables.{Table, IsTable};

    ghost Value = { Table };

    ghost view = { λ t. record { number = t.number; pages = t.pages; slots = t.slots.items } };

    ghost invariant = { λ t. IsTable (record { number = t.number; pages = t.pages; slots = t.slots.items }) };
}

/// So many slots with nothing in them.
fn empty_slots(alloc: Global, count: usize) -> Result<Vec<Slot>, NoMemory>
    ensures { IfOk result (λ slots. slots.items ≡ replicate count empty_slot) }
{
    let mut slots = Vec::new(alloc);
    for _ in 0..count {
        slots.push(Slot {
            value: None,
            dirty: false,
        })?;
    }
    Ok(slots)
}

/// The place of a page of the stripe.
fn place_of(page: u16) -> usize
    requires { 16 ≤ page }
    ensures { result ≡ page / 16 - 1 }
{
    usize::from(page / 16 - 1)
}

impl PageTable {
    /// The table of a stripe, of so many data pages, with nothing read in.
    pub(crate) fn new(alloc: Global, number: u8, pages: u16) -> Result<PageTable, NoMemory>
        requires small { number < 16 }
        requires low { 16 ≤ pages }
        requires high { pages ≤ 2048 }
        ensures number { IfOk result (λ t. t.number ≡ number) }
        ensures pages { IfOk result (λ t. t.pages ≡ pages) }
        ensures empty { IfOk result (λ t. (page : ℕ) → slot_of t page ≡ empty_slot) }
    {
        let count = (usize::from(pages) + 15 - usize::from(number)) / 16;
        let slots = empty_slots(alloc, count)?;
        Ok(PageTable {
            number,
            pages,
            slots,
        })
    }

    /// How many data pages the database has.
    pub(crate) fn pages(&self) -> u16
        ensures answer { result ≡ self.now.pages }
        ensures low { 16 ≤ result }
        ensures high { result ≤ 2048 }
    {
        self.pages
    }

    /// Whether a page is one of the stripe's.
    pub(crate) fn owns(&self, page: u16) -> bool
        ensures { result ≡ is_own self.now page }
    {
        16 <= page && page < 16 + self.pages && page % 16 == u16::from(self.number)
    }

    /// Whether the value of a page was read in.
    pub(crate) fn has(&self, page: u16) -> bool
        requires { is_own self.now page ≡ true }
        ensures yes { result ≡ true → IsKept self.now page }
        ensures no { result ≡ false → (slot_of self.now page).value ≡ None }
    {
        self.slots[place_of(page)].value.is_some()
    }

    /// The value of a page that was read in.
    pub(crate) fn value(&self, page: u16) -> &PageValue
        requires own { is_own self.now page ≡ true }
        requires kept { IsKept self.now page }
        ensures { (slot_of self.now page).value ≡ Some result.now }
    {
        match &self.slots[place_of(page)].value {
            Some(value) => value,
            None => unreachable!(),
        }
    }

    /// Keeps the value of a page that was read in.
    pub(crate) fn keep(&mut self, page: u16, value: PageValue)
        requires { is_own self.old page ≡ true }
        ensures same { IsSameTable self.old self.new }
        ensures kept { (q : ℕ) → slot_of self.new q ≡ (if q == page then record { value = Some value; dirty = (slot_of self.old page).dirty } else slot_of self.old q) }
    {
        self.slots[place_of(page)].value = Some(value);
    }

    /// Redoes the record at this LSN on a page that it touches, where the page is one of the stripe's.
    pub(crate) fn redo_on(&mut self, page: u16, lsn: u64, entry: &Record) -> Result<(), StripeFault>
        requires { touches self.old.pages page entry.now ≡ true }
        ensures same { IsSameTable self.old self.new }
        ensures redone { OnOk result ((q : ℕ) → slot_of self.new q ≡ (if is_own self.old q && (q == page) then redone_slot lsn entry.now (slot_of self.old q) else slot_of self.old q)) }
        ensures edits { OnlyEdits self.old self.new (λ q. is_own self.old q && touches self.old.pages q entry.now) }
        ensures refused { IfErr result (IsRefusal lsn entry.now self.old) }
    {
        if !self.owns(page) {
            return Ok(());
        }
        match self.slots[place_of(page)].redo(lsn, entry) {
            Ok(()) => Ok(()),
            Err(PutFault::PageFull { .. }) => Err(StripeFault::Unlawful { page }),
            Err(PutFault::NoMemory) => Err(StripeFault::NoMemory),
        }
    }

    /// Says that the image of a page was written.
    pub(crate) fn clean(&mut self, page: u16)
        requires { is_own self.old page ≡ true }
        ensures same { IsSameTable self.old self.new }
        ensures cleaned { (q : ℕ) → slot_of self.new q ≡ (if q == page then record { value = (slot_of self.old page).value; dirty = false } else slot_of self.old q) }
    {
        self.slots[place_of(page)].dirty = false;
    }

    /// Whether a page was changed since its image was written.
    pub(crate) fn is_dirty(&self, page: u16) -> bool
        requires { is_own self.now page ≡ true }
        ensures { result ≡ is_dirty self.now page }
    {
        self.slots[place_of(page)].dirty
    }

    /// The dirty pages.
    pub(crate) fn dirty(&self) -> PageSet
        ensures { result ≡ dirty_pages self.now }
    {
        dirty_of(self.number, &self.slots)
    }
}

/// The dirty pages of a stripe of this number.
fn dirty_of(number: u8, slots: &[Slot]) -> PageSet
    requires small { number < 16 }
    requires few { length slots.now ≤ 128 }
    ensures { result ≡ pages_where (is_dirty_at number slots.now (length slots.now)) }
{
    let mut set = PageSet::empty();
    for (i, slot) in slots.iter().enumerate() {
        if slot.dirty {
            set.insert(16 + u16::from(number) + 16 * i as u16);
        }
    }
    set
}
