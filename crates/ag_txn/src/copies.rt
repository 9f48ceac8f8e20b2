//! Copies of pages with their buffered records.
ghost use Rattle.std.specs.Prelude.{◌≡◌, ◌+◌, ◌≤◌, ◌<◌, ◌^◌, ◌++◌, map, None, IfOk, OnOk, option_copied, option_to_list, length, replicate};
ghost use Rattle.std.specs.List.{AllByRecursion};
ghost use Rattle.ag_txn.specs.Fresh.{IsPage, kept_all, fresh_of, fresh_copies};
ghost use Rattle.ag_txn.specs.View.{copy_of, with_copy};

use crate::pages::edited;
use ag_model::record::Record;
use ag_model::value::{NoMemory, PageValue};
use std::alloc::Global;
use std::marker::Model;

/// A slot for the copy of each data page, rising from page 16. Contracts see the copies by the numbers of the pages.
#[derive(Debug, Drop)]
pub(crate) struct PageCopies {
    slots: Vec<Option<PageValue>>,
}

impl Model for PageCopies {
    ghost use Rattle.ag_txn.specs.View.{Copies};

    ghost Value = { Copies };

    ghost view = { λ c. c.slots.items };
}

/// A copy of a page that is to be kept.
#[derive(Debug, Drop)]
pub(crate) struct FreshCopy {
    pub(crate) page: u16,
    pub(crate) copy: PageValue,
}

/// The slot of a data page.
fn slot_of(page: u16) -> usize
    requires { 16 ≤ page }
    ensures { result + 16 ≡ page }
{
    usize::from(page - 16)
}

/// Empties all slots.
fn forget_slots(slots: &mut Vec<Option<PageValue>>)
    ensures { slots.new.items ≡ map (λ c. None) slots.old.items }
{
    for slot in slots.iter_mut() {
        *slot = None;
    }
}

impl PageCopies {
    /// No copy of any of so many pages.
    pub(crate) fn none(alloc: Global, pages: u16) -> Result<PageCopies, NoMemory>
        ensures { IfOk result (λ c. c ≡ replicate pages None) }
    {
        let mut slots = Vec::new(alloc);
        for _ in 0..pages {
            slots.push(None)?;
        }
        Ok(PageCopies { slots })
    }

    /// The copy of a page, if it has one.
    pub(crate) fn copy_of(&self, page: u16) -> Option<&PageValue>
        requires low { 16 ≤ page }
        requires high { page < 16 + length self.now }
        ensures { option_copied result ≡ copy_of self.now page }
    {
        let slot = &self.slots[slot_of(page)];
        slot.as_ref()
    }

    /// Keeps this copy of a page.
    pub(crate) fn keep(&mut self, page: u16, copy: PageValue)
        requires low { 16 ≤ page }
        requires high { page < 16 + length self.old }
        ensures { self.new ≡ with_copy page copy self.old }
    {
        self.slots[slot_of(page)] = Some(copy);
    }

    /// Lets all copies go.
    pub(crate) fn forget(&mut self)
        ensures { self.new ≡ map (λ c. None) self.old }
    {
        forget_slots(&mut self.slots);
    }

    /// Keeps these copies.
    pub(crate) fn keep_all(&mut self, fresh: Vec<FreshCopy>)
        requires { AllByRecursion (λ f. IsPage (length self.old) f.page) fresh.items }
        ensures { self.new ≡ kept_all fresh.items self.old }
    {
        let mut left = fresh;
        while let Some(next) = left.pop() {
            self.keep(next.page, next.copy);
        }
    }
}

/// A fresh copy of a page that has one, with more records, of which the first has this LSN.
fn fresh_copy(
    alloc: Global,
    pages: u16,
    copies: &PageCopies,
    page: u16,
    first: u64,
    records: &[Record],
) -> Result<Option<FreshCopy>, NoMemory>
    requires few { pages ≤ 2048 }
    requires slots { length copies.now ≡ pages }
    requires page { IsPage pages page }
    requires lsns { first + length records.now < 2 ^ 64 }
    ensures { IfOk result (λ fresh. fresh ≡ fresh_of pages first records.now copies.now page) }
{
    let Some(v) = copies.copy_of(page) else {
        return Ok(None);
    };
    let copy = edited(alloc, pages, page, v, first, records)?;
    Ok(Some(FreshCopy { page, copy }))
}

/// Adds a fresh copy, if there is one.
fn add_some(fresh: &mut Vec<FreshCopy>, next: Option<FreshCopy>) -> Result<(), NoMemory>
    ensures { OnOk result (fresh.new.items ≡ fresh.old.items ++ option_to_list next) }
{
    if let Some(copy) = next {
        fresh.push(copy)?;
    }
    Ok(())
}

/// Fresh copies of those of these pages that have one, with more records, of which the first has this LSN.
pub(crate) fn fresh_copies(
    alloc: Global,
    pages: u16,
    copies: &PageCopies,
    listed: &[u16],
    first: u64,
    records: &[Record],
) -> Result<Vec<FreshCopy>, NoMemory>
    requires few { pages ≤ 2048 }
    requires slots { length copies.now ≡ pages }
    requires listed { AllByRecursion (IsPage pages) listed.now }
    requires lsns { first + length records.now < 2 ^ 64 }
    ensures { IfOk result (λ fresh. fresh.items ≡ fresh_copies pages first records.now copies.now listed.now) }
{
    let mut fresh = Vec::new(alloc);
    for page in listed {
        let next = fresh_copy(alloc, pages, copies, *page, first, records)?;
        add_some(&mut fresh, next)?;
    }
    Ok(fresh)
}
