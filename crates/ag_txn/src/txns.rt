//! The open transactions and the buffer of a primary.
ghost use Rattle.std.specs.Prelude.{◌≡◌, ◌≤◌, [], List, IfOk, OnOk, OnErr, map, MatchOption, length, ◌==◌, replicate, None};
ghost use Rattle.std.specs.List.{list_any};
ghost use Rattle.ag_model.specs.declared.record.Record.{Record};
ghost use Rattle.ag_model.specs.Sizes.{records_size, buffer_free};
ghost use Rattle.ag_rules.specs.Promotion.{is_spent};
ghost use Rattle.ag_rules.specs.Replica.{least};
ghost use Rattle.ag_txn.specs.Checks.{buffer_is_full};
ghost use Rattle.ag_txn.specs.Faults.{IsChecked};
ghost use Rattle.ag_txn.specs.Fresh.{IsPage};
ghost use Rattle.ag_txn.specs.View.{full_end, open_txns, seen};

mod adding;
mod changing;
mod ending;
mod hardening;
mod setting;
mod trimming;

use crate::copies::PageCopies;
use crate::fault::TxnFault;
use crate::opened::{OpenTxn, is_among, least_snapshot};
use ag_model::record::RecordList;
use ag_model::value::{NoMemory, PageValue};
use std::alloc::Global;
use std::marker::Model;

/// The greatest transaction number that is raised no more.
const LAST_NUMBER: u64 = 1 << 63;

/// The bytes that the buffer has for its records.
const BUFFER_ROOM: u32 = 15_488;

/// The open transactions and the buffer of a primary, with a copy of each page that the buffer's records touch.
#[derive(Debug, Drop)]
pub struct Txns {
    alloc: Global,
    pages: u16,
    /// Where the hardened log ends.
    end: u64,
    /// The greatest transaction number so far.
    last_txn: u64,
    txns: Vec<OpenTxn>,
    buffer: RecordList,
    /// The bytes of the buffer's records.
    bytes: u32,
    copies: PageCopies,
}

impl Model for Txns {
    ghost use Rattle.ag_txn.specs.View.{TxnsView};
    ghost use Rattle.ag_txn.specs.Invariant.{AreTxns};

    ghost Value = { TxnsView };

    ghost view = { λ t. record { pages = t.pages; end = t.end; last_txn = t.last_txn; txns = t.txns.items; buffer = t.buffer; copies = t.copies } };

    ghost invariant = { λ t. AreTxns t.pages t.end t.copies t.buffer t.bytes };
}

impl Txns {
    /// No open transaction and an empty buffer, at a primary with so many data pages whose hardened log ends at an LSN and
    /// which has had transaction numbers up to `last`.
    pub fn new(alloc: Global, pages: u16, end: u64, last: u64) -> Result<Txns, NoMemory>
        requires low { 16 ≤ pages }
        requires high { pages ≤ 2048 }
        ensures { IfOk result (λ t. t ≡ record { pages = pages; end = end; last_txn = last; txns = []; buffer = []; copies = replicate pages None }) }
    {
        let copies = PageCopies::none(alloc, pages)?;
        Ok(Txns {
            alloc,
            pages,
            end,
            last_txn: last,
            txns: Vec::new(alloc),
            buffer: RecordList::new(alloc),
            bytes: 0,
            copies,
        })
    }

    /// How many data pages there are.
    pub fn pages(&self) -> u16
        ensures answer { result ≡ self.now.pages }
        ensures low { 16 ≤ result }
        ensures high { result ≤ 2048 }
    {
        self.pages
    }

    /// The buffer: the records that aren't hardened.
    pub fn records(&self) -> &RecordList
        ensures { result.now ≡ self.now.buffer }
    {
        &self.buffer
    }

    /// Whether no transaction number is left.
    pub fn is_spent(&self) -> bool
        ensures { result ≡ is_spent self.now.last_txn }
    {
        self.last_txn >= LAST_NUMBER
    }

    /// Whether a transaction is open.
    pub fn is_open(&self, txn: u64) -> bool
        ensures { result ≡ list_any (λ t. t.txn == txn) (open_txns self.now) }
    {
        is_among(&self.txns, txn)
    }

    /// The least snapshot of the open transactions, an LSN.
    pub fn least_snapshot(&self) -> Option<u64>
        ensures { MatchOption result (self.now.txns ≡ []) (λ lsn. lsn ≡ least (map (λ t. t.snapshot) (open_txns self.now))) }
    {
        least_snapshot(&self.txns)
    }

    /// Where the log with the buffer ends, an LSN.
    pub fn full_end(&self) -> u64
        ensures { result ≡ full_end self.now }
    {
        self.end + self.buffer.len() as u64
    }

    /// A page as transactions see it.
    fn seen<'a>(&'a self, page: &'a PageValue) -> &'a PageValue
        requires { IsPage self.now.pages page.now.page }
        ensures { result.now ≡ seen self.now page.now }
    {
        match self.copies.copy_of(page.page) {
            Some(copy) => copy,
            None => page,
        }
    }

    /// Tells whether the buffer has no room for so many bytes.
    fn check_buffer(&self, need: u32) -> Result<(), TxnFault>
        ensures checked { (new : List Record) → records_size new ≡ need → IsChecked (buffer_is_full self.now.buffer new) result }
        ensures room { OnOk result (need ≤ buffer_free self.now.buffer) }
    {
        let free = BUFFER_ROOM - self.bytes;
        if free < need {
            return Err(TxnFault::BufferFull { need, free });
        }
        Ok(())
    }
}
