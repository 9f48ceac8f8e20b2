//! Whole transactions.
ghost use Rattle.std.specs.Prelude.{◌≡◌, ◌≤◌, ◌<◌, ◌+◌, ◌^◌, ◌∷◌, [], length, take, false, IfOk, OnErr, OnOk};
ghost use Rattle.std.specs.List.{AllByRecursion};
ghost use Rattle.ag_model.specs.Rows.{page_of};
ghost use Rattle.ag_rules.specs.Promotion.{is_spent};
ghost use Rattle.ag_rules.specs.SetEvent.{checks_of_pair, pages_of_pairs, records_of_set};
ghost use Rattle.ag_txn.specs.Changes.{pair_at, with_set};
ghost use Rattle.ag_txn.specs.Checks.{buffer_is_full};
ghost use Rattle.ag_txn.specs.Faults.{IsAllowed, refusal_in, first_refusal};
ghost use Rattle.ag_txn.specs.Fresh.{IsPage};
ghost use Rattle.ag_txn.specs.View.{full_end, seen, with_seen};

use super::Txns;
use crate::fault::TxnFault;
use crate::listed::{pages_of_pairs, records_of_set};
use crate::pages::edited;
use crate::room::{pair_size, taken_on};
use crate::sizes::{free_bytes, records_size};
use crate::versions::{check_lock, check_room};
use ag_model::event::PairList;
use ag_model::value::{NoMemory, PageValue};

impl Txns {
    /// Keeps a copy of a page, if it has none.
    fn remember(&mut self, page: &PageValue) -> Result<(), NoMemory>
        requires page { IsPage self.old.pages page.now.page }
        ensures ok { OnOk result (self.new ≡ with_seen self.old page.now) }
        ensures err { OnErr result (self.new ≡ self.old) }
    {
        if self.copies.copy_of(page.page).is_some() {
            return Ok(());
        }
        let copy = edited(self.alloc, self.pages, page.page, page, 0, &[])?;
        self.copies.keep(page.page, copy);
        Ok(())
    }

    /// Tells whether a pair of a `set` isn't taken, after the earlier pairs of the list. `page` is the hardened page of its key:
    /// where the pair passes, a copy of it is kept for `set`.
    pub fn may_set(
        &mut self,
        pairs: &PairList,
        place: u32,
        page: &PageValue,
    ) -> Result<(), TxnFault>
        requires place { place < length pairs.now }
        requires few { length pairs.now ≤ 8 }
        requires number { is_spent self.old.last_txn ≡ false }
        requires page { page.now.page ≡ page_of self.old.pages (pair_at pairs.now place).key }
        ensures refused { OnErr result (self.new ≡ self.old) }
        ensures allowed { IsAllowed (checks_of_pair self.old.pages (self.old.last_txn + 1) (take place pairs.now) (pair_at pairs.now place) (seen self.old page.now)) result }
        ensures passed { OnOk result (self.new ≡ with_seen self.old page.now) }
    {
        let (earlier, rest) = pairs.as_slice().split_at(place as usize);
        let pair = rest[0];
        let seen = self.seen(page);
        check_lock(seen.versions.as_slice(), self.last_txn + 1, pair.key)?;
        let taken = taken_on(self.pages, pair.key, earlier);
        check_room(pair_size(&pair), free_bytes(seen).saturating_sub(taken))?;
        self.remember(page)?;
        Ok(())
    }

    /// Adds a whole transaction of these pairs to the buffer, and answers the LSN of its Commit. Each pair has passed `may_set`, which
    /// kept a copy of its page.
    pub fn set(&mut self, pairs: &PairList) -> Result<u64, TxnFault>
        requires some { 1 ≤ length pairs.now }
        requires few { length pairs.now ≤ 8 }
        requires number { is_spent self.old.last_txn ≡ false }
        requires lsns { full_end self.old ≤ 2 ^ 63 }
        ensures allowed { IsAllowed (buffer_is_full self.old.buffer (records_of_set self.old.pages (self.old.last_txn + 1) pairs.now) ∷ []) result }
        ensures lsn { IfOk result (λ lsn. lsn ≡ full_end self.new) }
        ensures set { OnOk result (self.new ≡ with_set self.old pairs.now) }
        ensures err { OnErr result (self.new ≡ self.old) }
    {
        let txn = self.last_txn + 1;
        let new = records_of_set(self.alloc, self.pages, txn, pairs.as_slice())?;
        let size = records_size(new.as_slice())?;
        self.check_buffer(size)?;
        let listed = pages_of_pairs(self.alloc, self.pages, pairs.as_slice())?;
        self.add_listed(listed.as_slice(), new, size)?;
        self.last_txn = txn;
        Ok(self.full_end())
    }
}
