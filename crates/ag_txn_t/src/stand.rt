//! A primary of 16 data pages: its transactions, and its hardened pages.
use ag_model::event::PairList;
use ag_model::list::ListOf;
use ag_model::message::Block;
use ag_model::page::page_of;
use ag_model::record::{PageList, Record};
use ag_model::value::{Change, PageValue, Row};
use ag_txn::{TxnFault, Txns};
use ag_version::{abort, put, stamp, trim};
use std::alloc::Global;

/// How many data pages there are.
const PAGES: u16 = 16;

/// The greatest end at which a record may be added.
const MOST: u64 = 1 << 63;

/// The transactions of a primary, and its hardened pages from page 16 on.
#[derive(Drop)]
pub struct Stand {
    pub txns: Txns,
    pages: Vec<PageValue>,
}

/// Redoes a record on a page.
fn redo(page: &mut PageValue, lsn: u64, entry: &Record) -> bool {
    match entry {
        Record::Put { txn, key, value } => {
            page_of(PAGES, *key) != page.page
                || put(page, lsn, *txn, *key, &Change::Put(*value)).is_ok()
        }
        Record::Del { txn, key } => {
            page_of(PAGES, *key) != page.page || put(page, lsn, *txn, *key, &Change::Del).is_ok()
        }
        Record::Commit { txn, pages } => {
            if lists(pages, page.page) {
                stamp(page, lsn, *txn);
            }
            true
        }
        Record::Abort { txn, pages } => {
            if lists(pages, page.page) {
                abort(page, lsn, *txn);
            }
            true
        }
        Record::Trim {
            page: trimmed,
            horizon,
        } => {
            if *trimmed == page.page {
                trim(page, lsn, *horizon);
            }
            true
        }
        Record::Term { .. } => true,
    }
}

/// Whether a page is in a list.
fn lists(pages: &PageList, page: u16) -> bool {
    pages.as_slice().contains(&page)
}

impl Stand {
    /// A primary whose log has its first record alone.
    pub fn new(alloc: Global) -> Option<Stand> {
        let mut pages = Vec::new(alloc);
        for page in 16..16 + PAGES {
            let empty = PageValue {
                page,
                lsn: 0,
                horizon: 0,
                versions: ListOf::new(alloc),
            };
            pages.push(empty).ok()?;
        }
        let txns = Txns::new(alloc, PAGES, 1, 0).ok()?;
        Some(Stand { txns, pages })
    }

    /// The row that a transaction sees.
    pub fn get(&self, txn: u64, key: u32) -> Option<Row> {
        let number = page_of(self.txns.pages(), key);
        let page = self.pages.get(usize::from(number - 16))?;
        if page.page != number {
            return None;
        }
        Some(self.txns.get(page, txn, key))
    }

    /// Puts or deletes a row.
    pub fn put(&mut self, txn: u64, key: u32, change: &Change) -> Option<Result<u64, TxnFault>> {
        let number = page_of(self.txns.pages(), key);
        let page = self.pages.get(usize::from(number - 16))?;
        if page.page != number || self.txns.full_end() > MOST {
            return None;
        }
        Some(self.txns.put(page, txn, key, change))
    }

    /// Commits a transaction, or else takes it back.
    pub fn end(&mut self, commits: bool, txn: u64) -> Option<Result<Option<u64>, TxnFault>> {
        if self.txns.full_end() > MOST {
            return None;
        }
        if commits {
            Some(self.txns.commit(txn))
        } else {
            Some(self.txns.rollback(txn))
        }
    }

    /// Tries the pair at a place.
    fn try_pair(&mut self, pairs: &PairList, place: usize) -> Option<Result<(), TxnFault>> {
        let items = pairs.as_slice();
        if place >= items.len() || items.len() > 8 || self.txns.is_spent() {
            return None;
        }
        let number = page_of(self.txns.pages(), items[place].key);
        let page = self.pages.get(usize::from(number - 16))?;
        if page.page != number {
            return None;
        }
        Some(self.txns.may_set(pairs, place as u32, page))
    }

    /// A whole transaction.
    pub fn set(&mut self, pairs: &PairList) -> Option<Result<u64, TxnFault>> {
        for place in 0..pairs.len() {
            if let Err(fault) = self.try_pair(pairs, place)? {
                return Some(Err(fault));
            }
        }
        if pairs.is_empty()
            || pairs.len() > 8
            || self.txns.is_spent()
            || self.txns.full_end() > MOST
        {
            return None;
        }
        Some(self.txns.set(pairs))
    }

    /// Trims a page.
    pub fn trim(&mut self, page: u16, horizon: u64, limit: u64) -> Option<Result<u64, TxnFault>> {
        let place = usize::from(page).checked_sub(16)?;
        let page = self.pages.get(place)?;
        if page.page < 16 || page.page - 16 >= self.txns.pages() || self.txns.full_end() > MOST {
            return None;
        }
        Some(self.txns.trim(page, horizon, limit))
    }

    /// Redoes a block on the pages.
    fn redo_block(&mut self, block: &Block) -> bool {
        for (i, entry) in block.records.as_slice().iter().enumerate() {
            let lsn = block.first.saturating_add(i as u64);
            for page in self.pages.iter_mut() {
                if !redo(page, lsn, entry) {
                    return false;
                }
            }
        }
        true
    }

    /// Hardens the buffer, and answers its last LSN.
    pub fn harden(&mut self) -> Option<Result<u64, TxnFault>> {
        match self.txns.take_block(1) {
            Ok(block) => {
                if !self.redo_block(&block) {
                    return None;
                }
                Some(Ok(self.txns.full_end()))
            }
            Err(fault) => Some(Err(fault)),
        }
    }

    /// Takes the buffer out, and puts it back.
    pub fn take_and_put_back(&mut self) -> Result<u64, TxnFault> {
        let block = self.txns.take_block(1)?;
        let first = block.first;
        self.txns.put_back(block);
        Ok(first)
    }

    /// Lets the copies go, unless the buffer has records or a transaction is open.
    pub fn forget(&mut self) -> bool {
        if !self.txns.records().is_empty() || self.txns.least_snapshot().is_some() {
            return false;
        }
        self.txns.forget();
        true
    }
}
