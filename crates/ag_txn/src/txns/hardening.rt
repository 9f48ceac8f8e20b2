//! The buffer as a block, and the copies that are let go.
ghost use Rattle.std.specs.Prelude.{◌≡◌, ◌≤◌, ◌<◌, ◌+◌, ◌^◌, [], length, true, IfOk, IfErr, OnErr, OnOk, Err};
ghost use Rattle.ag_model.specs.Sizes.{records_size};
ghost use Rattle.ag_txn.specs.declared.fault.TxnFault.TheVariants.{NoMemory};
ghost use Rattle.ag_txn.specs.Changes.{block_of, with_block_taken, with_block_back, forgotten};
ghost use Rattle.ag_txn.specs.Checks.{buffer_is_empty};
ghost use Rattle.ag_txn.specs.Faults.{IsChecked};
ghost use Rattle.ag_txn.specs.View.{full_end};

use super::Txns;
use crate::fault::TxnFault;
use crate::sizes::small_size;
use ag_model::message::Block;
use ag_model::record::RecordList;
use std::mem;

impl Txns {
    /// Takes the buffer out as the next block of a term: the hardened log ends with it from then on. The copies stay, since
    /// they are the pages of the log with the buffer.
    pub fn take_block(&mut self, term: u64) -> Result<Block, TxnFault>
        ensures checked { IsChecked (buffer_is_empty self.old) result }
        ensures block { IfOk result (λ block. block ≡ block_of self.old term) }
        ensures room { IfOk result (λ block. records_size block.records ≤ 15488) }
        ensures taken { OnOk result (self.new ≡ with_block_taken self.old) }
        ensures err { OnErr result (self.new ≡ self.old) }
    {
        if self.buffer.is_empty() {
            return Err(TxnFault::Nothing);
        }
        let end = self.full_end();
        let first = self.end + 1;
        let records = mem::replace(&mut self.buffer, RecordList::new(self.alloc));
        self.end = end;
        self.bytes = 0;
        Ok(Block {
            first,
            term,
            records,
        })
    }

    /// Undoes the last `take_block`, with no call between.
    pub fn put_back(&mut self, block: Block)
        requires empty { self.old.buffer ≡ [] }
        requires some { 1 ≤ block.first }
        requires end { self.old.end + 1 ≡ block.first + length block.records }
        requires room { records_size block.records ≤ 15488 }
        ensures { self.new ≡ with_block_back self.old block }
    {
        let Block { first, records, .. } = block;
        self.bytes = small_size(records.as_slice());
        self.end = first - 1;
        self.buffer = records;
    }

    /// Lets all copies go, to free their memory. Nothing is lost: the buffer is empty and no transaction is open. It takes time by
    /// the data pages.
    pub fn forget(&mut self)
        requires empty { length self.old.buffer ≡ 0 }
        requires ended { self.old.txns ≡ [] }
        ensures { self.new ≡ forgotten self.old }
    {
        self.copies.forget();
    }
}
