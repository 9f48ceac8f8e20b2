//! The next records of a log, applied to a stripe.
ghost use Rattle.std.specs.Prelude.{◌≡◌, ◌+◌, ◌<◌, ◌^◌, ◌||◌, ℕ, true, false, length, Err, IfOk, OnOk, IfErr};
ghost use Rattle.ag_model.specs.declared.record.Log.{Log};
ghost use Rattle.ag_page.specs.Home.{HasRisen};
ghost use Rattle.ag_stripe.specs.declared.fault.StripeFault.TheVariants.{Bad, Home};
ghost use Rattle.ag_stripe.specs.Tables.{is_own, slot_of, is_dirty, IsSameTable};
ghost use Rattle.ag_stripe.specs.Known.{known};
ghost use Rattle.ag_stripe.specs.Known.Known.{NotSound};
ghost use Rattle.ag_stripe.specs.Reading.{OnlyReads, WasRead, HasPages};
ghost use Rattle.ag_stripe.specs.Ahead.{IsAhead, IsNext, AreNext};
ghost use Rattle.ag_stripe.specs.Redo.{is_touched, AreDirtyKept};
ghost use Rattle.ag_stripe.specs.Answers.{IsApplyFault};

use crate::fault::StripeFault;
use crate::redoing::redo_all;
use crate::stripe::Stripe;
use crate::visiting::visit_all;
use ag_model::message::Block;
use ag_model::record::Record;
use ag_page::PageHome;

impl<H: PageHome> Stripe<H> {
    /// Applies the next block of the log to the stripe's pages, and answers the new applied LSN. A page that has a
    /// record already is left as it is, but for being dirty. Bad names the least page that the block touches and whose
    /// image isn't sound; then nothing is applied.
    pub fn apply(&mut self, block: &Block) -> Result<u64, StripeFault>
        requires home { HasPages H.has_page self.old.table self.old.home }
        requires next { block.now.first ≡ self.old.applied + 1 }
        requires room { self.old.applied + length block.now.records < 2 ^ 64 }

        // Each page goes on to its value after the block, or stays where it is ahead of it.
        ensures values { OnOk result ((log : Log) (page : ℕ) → IsNext self.old.table.pages self.old.applied log block.now → is_own self.old.table page ≡ true
            → IsAhead self.old.table.pages log self.old.applied page (known (H.told self.old.home) self.old.table page)
            → IsAhead self.old.table.pages log self.new.applied page (known (H.told self.old.home) self.new.table page)) }
        ensures dirty { OnOk result ((page : ℕ) → is_dirty self.new.table page ≡ (is_dirty self.old.table page || is_touched self.old.table block.now.records page)) }
        ensures applied { OnOk result (self.new.applied ≡ self.old.applied + length block.now.records) }
        ensures answer { IfOk result (λ end. end ≡ self.new.applied) }
        ensures same { IsSameTable self.old.table self.new.table }
        ensures ready { OnOk result (HasPages H.has_page self.new.table self.new.home) }

        // It is refused where a page that the block touches is bad, and then nothing changes.
        ensures sound { OnOk result ((page : ℕ) → is_touched self.old.table block.now.records page ≡ true → known (H.told self.old.home) self.old.table page ≡ NotSound → ⊥) }
        ensures fault { IfErr result (IsApplyFault (H.told self.old.home) self.old.table self.old.applied block.now.records) }
        ensures unchanged { (page : ℕ) → result ≡ Err (Bad page) → OnlyReads (H.told self.old.home) self.old.table self.new.table
            × (self.new.applied ≡ self.old.applied) × HasPages H.has_page self.new.table self.new.home }

        ensures opening { self.new.opening ≡ self.old.opening }
        ensures home { WasRead H.has_page H.told H.faults H.refusals H.leaves self.old.home self.new.home }
        ensures cause { result ≡ Err Home → HasRisen (H.faults self.old.home) (H.faults self.new.home) }
    {
        self.redo(block.records.as_slice())?;
        Ok(self.applied)
    }

    /// Applies the next records of the log to the stripe's pages. A page that has a record already is left as it is,
    /// but for being dirty. Bad names the least page that they touch and whose image isn't sound; then nothing is
    /// applied.
    pub fn redo(&mut self, records: &[Record]) -> Result<(), StripeFault>
        requires home { HasPages H.has_page self.old.table self.old.home }
        requires room { self.old.applied + length records.now < 2 ^ 64 }

        // Each page goes on to its value after the records, or stays where it is ahead of them.
        ensures values { OnOk result ((log : Log) (page : ℕ) → AreNext self.old.table.pages self.old.applied log records.now → is_own self.old.table page ≡ true
            → IsAhead self.old.table.pages log self.old.applied page (known (H.told self.old.home) self.old.table page)
            → IsAhead self.old.table.pages log self.new.applied page (known (H.told self.old.home) self.new.table page)) }
        ensures others { OnOk result ((page : ℕ) → is_touched self.old.table records.now page ≡ false → slot_of self.new.table page ≡ slot_of self.old.table page) }
        ensures dirty { OnOk result ((page : ℕ) → is_dirty self.new.table page ≡ (is_dirty self.old.table page || is_touched self.old.table records.now page)) }
        ensures applied { OnOk result (self.new.applied ≡ self.old.applied + length records.now) }
        ensures same { IsSameTable self.old.table self.new.table }
        ensures ready { OnOk result (HasPages H.has_page self.new.table self.new.home) }

        // It is refused where a page that they touch is bad, and then nothing changes.
        ensures sound { OnOk result ((page : ℕ) → is_touched self.old.table records.now page ≡ true → known (H.told self.old.home) self.old.table page ≡ NotSound → ⊥) }
        ensures fault { IfErr result (IsApplyFault (H.told self.old.home) self.old.table self.old.applied records.now) }
        ensures unchanged { (page : ℕ) → result ≡ Err (Bad page) → OnlyReads (H.told self.old.home) self.old.table self.new.table
            × (self.new.applied ≡ self.old.applied) × HasPages H.has_page self.new.table self.new.home }

        // A dirty page has its value in memory, whatever is answered.
        ensures kept { AreDirtyKept self.old.table → AreDirtyKept self.new.table }

        ensures opening { self.new.opening ≡ self.old.opening }
        ensures home { WasRead H.has_page H.told H.faults H.refusals H.leaves self.old.home self.new.home }
        ensures cause { result ≡ Err Home → HasRisen (H.faults self.old.home) (H.faults self.new.home) }
    {
        if let Some(page) = visit_all(self.alloc, &mut self.table, &mut self.home, records)? {
            return Err(StripeFault::Bad { page });
        }
        let end = redo_all(&mut self.table, self.applied, records)?;
        self.applied = end;
        Ok(())
    }
}
