//! How a transaction ends.
ghost use Rattle.std.specs.Prelude.{◌≡◌, ◌≤◌, ◌^◌, ◌<◌, ◌∷◌, [], length, true, false, IfOk, OnErr, OnOk};
ghost use Rattle.std.specs.List.{AllByRecursion};
ghost use Rattle.ag_rules.specs.CommitEvent.{end_record as record_of_end};
ghost use Rattle.ag_txn.specs.Changes.{closed, ended, end_lsn, checks_of_end, listed_pages as pages_listed};
ghost use Rattle.ag_txn.specs.Checks.{buffer_is_full};
ghost use Rattle.ag_txn.specs.Faults.{IsAllowed};
ghost use Rattle.ag_txn.specs.Fresh.{IsPage};
ghost use Rattle.ag_txn.specs.View.{full_end, with_records};

use super::Txns;
use crate::fault::TxnFault;
use crate::listed::{end_record, one_record};
use crate::opened::{close, listed_pages, touched_by};
use crate::sizes::records_size;

impl Txns {
    /// Adds the record by which a transaction ends, which lists these pages.
    fn add_end(&mut self, commits: bool, txn: u64, listed: &[u16]) -> Result<(), TxnFault>
        requires listed { AllByRecursion (IsPage self.old.pages) listed.now }
        requires lsns { full_end self.old ≤ 2 ^ 63 }
        ensures allowed { IsAllowed (buffer_is_full self.old.buffer (record_of_end commits txn listed.now ∷ []) ∷ []) result }
        ensures added { OnOk result (self.new ≡ with_records self.old (record_of_end commits txn listed.now ∷ [])) }
        ensures err { OnErr result (self.new ≡ self.old) }
    {
        let pages = Vec::from_slice(self.alloc, listed)?;
        let new = one_record(self.alloc, end_record(commits, txn, pages))?;
        let size = records_size(new.as_slice())?;
        self.check_buffer(size)?;
        self.add_listed(listed, new, size)?;
        Ok(())
    }

    /// Ends a transaction by a Commit, or else by an Abort, and answers the LSN of that record. A transaction that touched no
    /// page has none.
    fn end_txn(&mut self, commits: bool, txn: u64) -> Result<Option<u64>, TxnFault>
        requires lsns { full_end self.old ≤ 2 ^ 63 }
        ensures allowed { IsAllowed (checks_of_end commits self.old txn (pages_listed self.old txn)) result }
        ensures lsn { IfOk result (λ lsn. lsn ≡ end_lsn self.old (pages_listed self.old txn)) }
        ensures ended { OnOk result (self.new ≡ ended commits self.old txn (pages_listed self.old txn)) }
        ensures err { OnErr result (self.new ≡ self.old) }
    {
        let touched = touched_by(&self.txns, txn);
        let listed = listed_pages(self.alloc, self.pages, &touched)?;
        if listed.is_empty() {
            close(&mut self.txns, txn);
            return Ok(None);
        }
        let lsn = self.full_end() + 1;
        self.add_end(commits, txn, listed.as_slice())?;
        close(&mut self.txns, txn);
        Ok(Some(lsn))
    }

    /// Commits a transaction, and answers the LSN of its Commit. A transaction that touched no page has none.
    pub fn commit(&mut self, txn: u64) -> Result<Option<u64>, TxnFault>
        requires lsns { full_end self.old ≤ 2 ^ 63 }
        ensures allowed { IsAllowed (checks_of_end true self.old txn (pages_listed self.old txn)) result }
        ensures lsn { IfOk result (λ lsn. lsn ≡ end_lsn self.old (pages_listed self.old txn)) }
        ensures ended { OnOk result (self.new ≡ ended true self.old txn (pages_listed self.old txn)) }
        ensures err { OnErr result (self.new ≡ self.old) }
    {
        let lsn = self.end_txn(true, txn)?;
        Ok(lsn)
    }

    /// Takes back what a transaction did, and answers the LSN of its Abort. A transaction that touched no page has none.
    pub fn rollback(&mut self, txn: u64) -> Result<Option<u64>, TxnFault>
        requires lsns { full_end self.old ≤ 2 ^ 63 }
        ensures allowed { IsAllowed (checks_of_end false self.old txn (pages_listed self.old txn)) result }
        ensures lsn { IfOk result (λ lsn. lsn ≡ end_lsn self.old (pages_listed self.old txn)) }
        ensures ended { OnOk result (self.new ≡ ended false self.old txn (pages_listed self.old txn)) }
        ensures err { OnErr result (self.new ≡ self.old) }
    {
        let lsn = self.end_txn(false, txn)?;
        Ok(lsn)
    }
}
