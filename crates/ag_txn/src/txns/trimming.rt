//! Pages that are trimmed.
ghost use Rattle.std.specs.Prelude.{◌≡◌, ◌≤◌, ◌+◌, ◌^◌, IfOk, OnErr, OnOk};
ghost use Rattle.ag_model.specs.Sizes.{buffer_free};
ghost use Rattle.ag_txn.specs.Changes.{with_trim};
ghost use Rattle.ag_txn.specs.Checks.{checks_of_trim};
ghost use Rattle.ag_txn.specs.Faults.{refusal_in, first_refusal};
ghost use Rattle.ag_txn.specs.Fresh.{IsPage};
ghost use Rattle.ag_txn.specs.View.{full_end, seen};

use super::Txns;
use crate::fault::TxnFault;
use crate::trimming::trims_some;
use ag_model::record::Record;
use ag_model::value::PageValue;

/// The bytes of a Trim.
const TRIM_SIZE: u32 = 11;

impl Txns {
    /// Tells whether a page isn't trimmed.
    fn check_trim(&self, page: &PageValue, horizon: u64, limit: u64) -> Result<(), TxnFault>
        requires page { IsPage self.now.pages page.now.page }
        ensures refused { refusal_in result ≡ first_refusal (checks_of_trim self.now limit horizon (seen self.now page.now)) }
        ensures room { OnOk result (11 ≤ buffer_free self.now.buffer) }
    {
        if limit < horizon {
            return Err(TxnFault::Held { horizon, limit });
        }
        if !trims_some(self.seen(page), horizon) {
            return Err(TxnFault::Nothing);
        }
        if let Err(fault) = self.check_buffer(TRIM_SIZE) {
            return Err(fault);
        }
        Ok(())
    }

    /// Adds a Trim of a page to a horizon, an LSN, and answers its LSN. `page` is the hardened page. Held says that the horizon
    /// is above the limit, and Nothing that no version of the page as transactions see it would go.
    pub fn trim(&mut self, page: &PageValue, horizon: u64, limit: u64) -> Result<u64, TxnFault>
        requires page { IsPage self.old.pages page.now.page }
        requires lsns { full_end self.old ≤ 2 ^ 63 }
        ensures refused { refusal_in result ≡ first_refusal (checks_of_trim self.old limit horizon (seen self.old page.now)) }
        ensures lsn { IfOk result (λ lsn. lsn ≡ full_end self.old + 1) }
        ensures trimmed { OnOk result (self.new ≡ with_trim self.old page.now horizon) }
        ensures err { OnErr result (self.new ≡ self.old) }
    {
        self.check_trim(page, horizon, limit)?;
        let entry = Record::Trim {
            page: page.page,
            horizon,
        };
        let lsn = self.add_one(page, entry, TRIM_SIZE)?;
        Ok(lsn)
    }
}
