//! The next records of a log, applied to the pages of a stripe.
ghost use Rattle.std.specs.Prelude.{◌≡◌, ◌+◌, ◌<◌, ◌^◌, ◌≤◌, ◌||◌, ◌==◌, ℕ, true, false, set, length, Err, IfOk, OnOk, IfErr};
ghost use Rattle.ag_model.specs.declared.record.Log.{Log};
ghost use Rattle.ag_model.specs.Rows.{stripe_of};
ghost use Rattle.ag_outside.specs.Counts.{HasRisen};
ghost use Rattle.ag_stripe.specs.declared.fault.StripeFault.TheVariants.{Bad, Home};
ghost use Rattle.ag_stripe.specs.Ahead.{IsAhead, AreNext};
ghost use Rattle.ag_stripe.specs.Known.Known.{NotSound};
ghost use Rattle.ag_pages.specs.Views.{slot, applied_of, is_of, is_dirty, known_of, told_by};
ghost use Rattle.ag_pages.specs.Reading.{WasOnlyRead, OnlyReadsIn};
ghost use Rattle.ag_pages.specs.Redo.{is_touched, IsRedoFault};

use crate::lending;
use crate::pages::Pages;
use crate::places::{put_in, take_out};
use ag_model::record::Record;
use ag_outside::disk::Disk;
use ag_stripe::StripeFault;

impl Pages {
    /// Applies the next records of the log to the pages of a stripe. A page that has a record already is left as it is,
    /// but for being dirty. Bad names the least page of the stripe that they touch and whose image isn't sound; then
    /// nothing is applied.
    pub fn redo<D: Disk>(
        &mut self,
        disk: &mut D,
        stripe: u8,
        records: &[Record],
    ) -> Result<(), StripeFault>
        requires stripe { stripe < 16 }
        requires places { 33088 ≤ D.size disk.old }
        requires room { applied_of self.old stripe + length records.now < 2 ^ 64 }

        // Each page of the stripe goes on to its value after the records, or stays where it is ahead of them.
        ensures values { OnOk result ((log : Log) (page : ℕ) → AreNext self.old.count (applied_of self.old stripe) log records.now → is_of self.old stripe page ≡ true
            → IsAhead self.old.count log (applied_of self.old stripe) page (known_of (told_by D.keeps D.reads disk.old) self.old page)
            → IsAhead self.old.count log (applied_of self.old stripe + length records.now) page (known_of (told_by D.keeps D.reads disk.old) self.new page)) }
        ensures applied { OnOk result (self.new.applied ≡ set self.old.applied stripe (applied_of self.old stripe + length records.now)) }
        ensures dirty { OnOk result ((page : ℕ) → is_dirty self.new page ≡ (is_dirty self.old page || is_touched self.old stripe records.now page)) }
        ensures untouched { OnOk result ((page : ℕ) → is_touched self.old stripe records.now page ≡ false → slot self.new page ≡ slot self.old page) }

        // It is refused where a page that they touch is bad, and then nothing changes.
        ensures sound { OnOk result ((page : ℕ) → is_touched self.old stripe records.now page ≡ true → known_of (told_by D.keeps D.reads disk.old) self.old page ≡ NotSound → ⊥) }
        ensures fault { IfErr result (IsRedoFault (told_by D.keeps D.reads disk.old) self.old stripe records.now) }
        ensures unchanged { (page : ℕ) → result ≡ Err (Bad page) → OnlyReadsIn (told_by D.keeps D.reads disk.old) self.old self.new }

        // Whatever is answered, the other stripes stay as they are, and the disk is only read.
        ensures count { self.new.count ≡ self.old.count }
        ensures others { (page : ℕ) → (stripe_of page == stripe) ≡ false → slot self.new page ≡ slot self.old page }
        ensures others_applied { (other : ℕ) → (other == stripe) ≡ false → applied_of self.new other ≡ applied_of self.old other }
        ensures disk { WasOnlyRead D.size D.keeps D.reads D.may_hold D.did disk.old disk.new }
        ensures later { D.faults disk.old ≤ D.faults disk.new }
        ensures cause { result ≡ Err Home → HasRisen (D.faults disk.old) (D.faults disk.new) }
    {
        let taken = take_out(&mut self.places, stripe);
        let (back, answer) = lending::redo(taken, disk, records);
        put_in(&mut self.places, stripe, back);
        answer
    }
}
