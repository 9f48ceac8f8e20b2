//! Records that go into the buffer, with the copies of the pages that they touch.
ghost use Rattle.std.specs.Prelude.{◌≡◌, ◌≤◌, ◌<◌, ◌+◌, ◌^◌, ◌++◌, ◌==◌, ◌∷◌, [], ℕ, length, IfOk, OnErr, OnOk};
ghost use Rattle.std.specs.List.{AllByRecursion};
ghost use Rattle.ag_model.specs.Rows.{touches};
ghost use Rattle.ag_model.specs.Sizes.{record_size, records_size, buffer_free};
ghost use Rattle.ag_txn.specs.Fresh.{IsPage, OnlyTouch, kept_all};
ghost use Rattle.ag_txn.specs.View.{full_end, with_seen, with_records};

use super::Txns;
use crate::copies::{FreshCopy, fresh_copies};
use crate::listed::one_record;
use crate::pages::edited;
use ag_model::record::{Record, RecordList};
use ag_model::value::{NoMemory, PageValue};

impl Txns {
    /// Adds these records to the buffer, and keeps fresh copies.
    fn add(&mut self, new: RecordList, size: u32, fresh: Vec<FreshCopy>) -> Result<(), NoMemory>
        requires size { size ≡ records_size new }
        requires room { size ≤ buffer_free self.old.buffer }
        requires lsns { full_end self.old + length new < 2 ^ 64 }
        requires pages { AllByRecursion (λ f. IsPage self.old.pages f.page) fresh.items }
        ensures ok { OnOk result (self.new ≡ record self.old { buffer = self.old.buffer ++ new; copies = kept_all fresh.items self.old.copies }) }
        ensures err { OnErr result (self.new ≡ self.old) }
    {
        let mut records = new;
        self.buffer.append(&mut records)?;
        self.bytes += size;
        self.copies.keep_all(fresh);
        Ok(())
    }

    /// Adds a record that touches one page, and answers its LSN.
    pub(super) fn add_one(
        &mut self,
        page: &PageValue,
        entry: Record,
        size: u32,
    ) -> Result<u64, NoMemory>
        requires page { IsPage self.old.pages page.now.page }
        requires touches { (p : ℕ) → touches self.old.pages p entry ≡ (p == page.now.page) }
        requires size { size ≡ record_size entry }
        requires room { size ≤ buffer_free self.old.buffer }
        requires lsns { full_end self.old ≤ 2 ^ 63 }
        ensures lsn { IfOk result (λ lsn. lsn ≡ full_end self.old + 1) }
        ensures added { OnOk result (self.new ≡ with_records (with_seen self.old page.now) (entry ∷ [])) }
        ensures err { OnErr result (self.new ≡ self.old) }
    {
        let lsn = self.full_end() + 1;
        let new = one_record(self.alloc, entry)?;
        let seen = self.seen(page);
        let copy = edited(self.alloc, self.pages, page.page, seen, lsn, new.as_slice())?;
        let mut fresh = Vec::new(self.alloc);
        fresh.push(FreshCopy {
            page: page.page,
            copy,
        })?;
        self.add(new, size, fresh)?;
        Ok(lsn)
    }

    /// Adds records that touch no page but these.
    pub(super) fn add_listed(
        &mut self,
        listed: &[u16],
        new: RecordList,
        size: u32,
    ) -> Result<(), NoMemory>
        requires listed { AllByRecursion (IsPage self.old.pages) listed.now }
        requires touches { OnlyTouch self.old.pages listed.now new }
        requires size { size ≡ records_size new }
        requires room { size ≤ buffer_free self.old.buffer }
        requires lsns { full_end self.old + length new + 1 < 2 ^ 64 }
        ensures ok { OnOk result (self.new ≡ with_records self.old new) }
        ensures err { OnErr result (self.new ≡ self.old) }
    {
        let first = self.full_end() + 1;
        let fresh = fresh_copies(
            self.alloc,
            self.pages,
            &self.copies,
            listed,
            first,
            new.as_slice(),
        )?;
        self.add(new, size, fresh)?;
        Ok(())
    }
}
