//! What an open transaction does: it begins, reads and changes rows.
ghost use Rattle.std.specs.Prelude.{◌≡◌, ◌≤◌, ◌<◌, ◌+◌, ◌^◌, ◌∷◌, [], IfOk, OnErr, OnOk};
ghost use Rattle.ag_model.specs.Rows.{page_of};
ghost use Rattle.ag_model.specs.Sizes.{record_size, buffer_free};
ghost use Rattle.ag_rules.specs.GetEvent.{row_seen};
ghost use Rattle.ag_rules.specs.PutEvent.{record_of as change_record};
ghost use Rattle.ag_txn.specs.Changes.{with_begun, with_put};
ghost use Rattle.ag_txn.specs.Checks.{number_is_spent, checks_of_put, snapshot_of as snapshot_in_view};
ghost use Rattle.ag_txn.specs.Faults.{refusal_in, first_refusal};
ghost use Rattle.ag_txn.specs.Fresh.{IsPage};
ghost use Rattle.ag_txn.specs.View.{full_end, seen};

use super::Txns;
use crate::fault::TxnFault;
use crate::listed::record_of;
use crate::opened::{OpenTxn, snapshot_of, touch};
use crate::sizes::{change_record_size, change_size, free_bytes};
use crate::versions::{check_conflict, check_lock, check_room, row_seen};
use ag_model::page_set::PageSet;
use ag_model::value::{Change, PageValue, Row};

impl Txns {
    /// Opens a transaction, whose snapshot is the end of the log with the buffer, and answers its number. Spent says that no
    /// number is left.
    pub fn begin(&mut self) -> Result<u64, TxnFault>
        ensures refused { refusal_in result ≡ first_refusal (number_is_spent self.old ∷ []) }
        ensures number { IfOk result (λ txn. txn ≡ self.old.last_txn + 1) }
        ensures begun { OnOk result (self.new ≡ with_begun self.old) }
        ensures err { OnErr result (self.new ≡ self.old) }
    {
        if self.is_spent() {
            return Err(TxnFault::Spent);
        }
        let txn = self.last_txn + 1;
        let snapshot = self.full_end();
        self.txns.push(OpenTxn {
            txn,
            snapshot,
            touched: PageSet::empty(),
        })?;
        self.last_txn = txn;
        Ok(txn)
    }

    /// The row of a key as a transaction sees it: its own last change, and else the row at its snapshot. `page` is the hardened
    /// page of the key.
    pub fn get(&self, page: &PageValue, txn: u64, key: u32) -> Row
        requires { page.now.page ≡ page_of self.now.pages key }
        ensures { result ≡ row_seen (seen self.now page.now) txn key (snapshot_in_view self.now txn) }
    {
        let snapshot = snapshot_of(&self.txns, txn);
        row_seen(self.seen(page), txn, key, snapshot)
    }

    /// Tells whether a change isn't taken.
    fn check_put(
        &self,
        page: &PageValue,
        txn: u64,
        key: u32,
        change: &Change,
    ) -> Result<(), TxnFault>
        requires page { IsPage self.now.pages page.now.page }
        ensures refused { refusal_in result ≡ first_refusal (checks_of_put self.now txn key change.now (seen self.now page.now)) }
        ensures room { OnOk result (record_size (change_record txn key change.now) ≤ buffer_free self.now.buffer) }
    {
        let seen = self.seen(page);
        check_lock(seen.versions.as_slice(), txn, key)?;
        let snapshot = snapshot_of(&self.txns, txn);
        check_conflict(seen.versions.as_slice(), key, snapshot)?;
        check_room(change_size(change), free_bytes(seen))?;
        if let Err(fault) = self.check_buffer(change_record_size(change)) {
            return Err(fault);
        }
        Ok(())
    }

    /// Puts or deletes a row in a transaction, and answers the LSN of its record. `page` is the hardened page of the key. What
    /// refuses it is judged by the page as transactions see it.
    pub fn put(
        &mut self,
        page: &PageValue,
        txn: u64,
        key: u32,
        change: &Change,
    ) -> Result<u64, TxnFault>
        requires page { page.now.page ≡ page_of self.old.pages key }
        requires lsns { full_end self.old ≤ 2 ^ 63 }
        ensures refused { refusal_in result ≡ first_refusal (checks_of_put self.old txn key change.now (seen self.old page.now)) }
        ensures lsn { IfOk result (λ lsn. lsn ≡ full_end self.old + 1) }
        ensures put { OnOk result (self.new ≡ with_put self.old page.now txn key change.now) }
        ensures err { OnErr result (self.new ≡ self.old) }
    {
        let _ = &self.buffer;
        self.check_put(page, txn, key, change)?;
        let lsn = self.add_one(
            page,
            record_of(txn, key, change),
            change_record_size(change),
        )?;
        touch(&mut self.txns, txn, page.page);
        Ok(lsn)
    }
}
