//! Redo of the log on the pages.
ghost use Rattle.std.specs.Prelude.{◌≡◌, ◌&&◌, ◌==◌, ◌<◌, ◌≤◌, ℕ, true, false, length, get_or, set, replicate, IsTrue, IfOk, OnOk, OnErr, IsErrOf};
ghost use Rattle.ag_model.specs.Blocks.{cut_at, next_end};
ghost use Rattle.ag_model.specs.Prefixes.{IsBlockEnd, end_of};
ghost use Rattle.ag_model.specs.Proper.{IsProper};
ghost use Rattle.ag_model.specs.Rows.{stripe_of};
ghost use Rattle.ag_outside.specs.Counts.{HasRisen};
ghost use Rattle.ag_outside.specs.Shown.{reads_of};
ghost use Rattle.ag_stripe.specs.Ahead.{IsAhead};
ghost use Rattle.ag_pages.specs.Views.{applied_of, is_of, known_of};
ghost use Rattle.ag_store.specs.Images.{is_touched_between};
ghost use Rattle.ag_store.specs.Redoing.{AreRedone, IsRedone, ShowsSame};
ghost use Rattle.ag_store.specs.Standing.{IsDataPage, told_on};
ghost use Rattle.ag_store.specs.Views.{set_where};

use crate::store::Store;
use ag_kept::KeptFault;
use ag_logstore::HardenedLog;
use ag_outside::disk::Disk;
use ag_outside::order::{Arm, Why};
use ag_outside::scripted::Scripted;
use ag_pages::Pages;
use ag_stripe::StripeFault;

/// The fault of a read that failed, by what the disk tells. Only the disk below fails a read; a count of faults that can't
/// rise any more doesn't show it, and then the fault counts as a refusal.
pub(crate) fn fault_of_read(why: Why) -> KeptFault
    ensures { result ≡ KeptFault.DiskFault → why ≡ Why.Inner }
{
    match why {
        Why::Inner => KeptFault::DiskFault,
        _ => KeptFault::NoMemory,
    }
}

/// Applies the log to one stripe, from where that stands to an LSN at which a block ends.
pub(crate) fn redo_stripe<D: Disk>(
    log: &HardenedLog,
    disk: &mut Scripted<D>,
    pages: &mut Pages,
    stripe: u8,
    end: u64,
) -> Result<(), KeptFault>
    requires place { 33088 ≤ D.size disk.old.disk }
    requires keeps { IsTrue (D.keeps disk.old.disk) }
    requires stripe { stripe < 16 }
    requires proper { IsProper pages.old.count log.now }
    requires end { IsBlockEnd log.now end }
    requires within { end ≤ end_of log.now }
    requires from { applied_of pages.old stripe ≤ end }
    requires ahead { (page : ℕ) → is_of pages.old stripe page ≡ true →
        IsAhead pages.old.count (cut_at end log.now) (applied_of pages.old stripe) page (known_of (told_on (reads_of D.reads disk.old)) pages.old page) }
    ensures pages { OnOk result (IsRedone (reads_of D.reads disk.old) log.now stripe end pages.old pages.new) }
    ensures disk { OnOk result (ShowsSame D.keeps D.reads D.may_hold disk.old disk.new) }
    ensures later { D.faults disk.old.disk ≤ D.faults disk.new.disk }
    ensures fault { IsErrOf result KeptFault.DiskFault → HasRisen (D.faults disk.old.disk) (D.faults disk.new.disk) }
    ensures size { D.size disk.new.disk ≡ D.size disk.old.disk }
{
    disk.arm(Arm::Free);
    let from = pages.applied(stripe);
    let records = &log.records()[from as usize..end as usize];
    match pages.redo(disk, stripe, records) {
        Ok(()) => Ok(()),
        Err(StripeFault::Home) => Err(fault_of_read(disk.why())),
        Err(StripeFault::NoMemory) => Err(KeptFault::NoMemory),
        Err(StripeFault::Bad { .. }) => unreachable!(),
        Err(StripeFault::Unlawful { .. }) => unreachable!(),
        Err(StripeFault::Pending { .. }) => unreachable!(),
        Err(StripeFault::TooOld { .. }) => unreachable!(),
    }
}

/// Applies the log to all stripes, to its end, and answers that.
pub(crate) fn redo_to_end<D: Disk>(
    log: &HardenedLog,
    disk: &mut Scripted<D>,
    pages: &mut Pages,
) -> Result<u64, KeptFault>
    requires place { 33088 ≤ D.size disk.old.disk }
    requires keeps { IsTrue (D.keeps disk.old.disk) }
    requires proper { IsProper pages.old.count log.now }
    requires sixteen { length pages.old.applied ≡ 16 }
    requires within { (stripe : ℕ) → stripe < 16 → applied_of pages.old stripe ≤ end_of log.now }
    requires ahead { (page : ℕ) → IsDataPage pages.old.count page →
        IsAhead pages.old.count log.now (applied_of pages.old (stripe_of page)) page (known_of (told_on (reads_of D.reads disk.old)) pages.old page) }
    ensures lsn { IfOk result (λ lsn. lsn ≡ end_of log.now) }
    ensures pages { OnOk result (AreRedone (reads_of D.reads disk.old) log.now pages.old pages.new) }
    ensures disk { OnOk result (ShowsSame D.keeps D.reads D.may_hold disk.old disk.new) }
    ensures later { D.faults disk.old.disk ≤ D.faults disk.new.disk }
    ensures fault { IsErrOf result KeptFault.DiskFault → HasRisen (D.faults disk.old.disk) (D.faults disk.new.disk) }
    ensures size { D.size disk.new.disk ≡ D.size disk.old.disk }
{
    let end = log.end();
    for stripe in 0..16 {
        redo_stripe(log, disk, pages, stripe, end)?;
    }
    Ok(end)
}

impl<D: Disk> Store<D> {
    /// Applies the next block of the log to a stripe, and answers where it stands then.
    pub fn apply_next(&mut self, stripe: u8) -> Result<u64, KeptFault>
        requires sound { self.old.sound ≡ true }
        requires up { self.old.kept.loaded ≡ true }
        requires stripe { stripe < 16 }
        ensures lsn { IfOk result (λ lsn. lsn ≡ next_end (get_or self.old.applied stripe 0) self.old.kept.log.ends) }
        ensures store { IfOk result (λ lsn. self.new ≡ record self.old {
          applied = set self.old.applied stripe lsn;
          dirty = set_where (λ page. (stripe_of page == stripe) && is_touched_between self.old.pages self.old.kept.log.records page (get_or self.old.applied stripe 0) lsn) 16 self.old.dirty;
          faults = self.new.faults;
        }) }
        ensures later { OnOk result (self.old.faults ≤ self.new.faults) }
        ensures err { OnErr result (self.new.sound ≡ false) }
        ensures fault { IsErrOf result KeptFault.DiskFault → HasRisen self.old.faults self.new.faults }
    {
        match self.memory.take() {
            None => unreachable!(),
            Some(mut memory) => {
                let from = memory.pages.applied(stripe);
                let end = memory.log.log().end_after(from);
                let log = memory.log.log();
                match redo_stripe(log, &mut self.disk, &mut memory.pages, stripe, end) {
                    Ok(()) => {
                        self.memory = Some(memory);
                        Ok(end)
                    }
                    Err(e) => {
                        self.is_sound = false;
                        Err(e)
                    }
                }
            }
        }
    }

    /// Applies the log to all stripes, to its end, and answers that.
    pub fn redo(&mut self) -> Result<u64, KeptFault>
        requires sound { self.old.sound ≡ true }
        requires up { self.old.kept.loaded ≡ true }
        ensures lsn { IfOk result (λ lsn. lsn ≡ length self.old.kept.log.records) }
        ensures store { IfOk result (λ lsn. self.new ≡ record self.old {
          applied = replicate 16 lsn;
          dirty = set_where (λ page. is_touched_between self.old.pages self.old.kept.log.records page (get_or self.old.applied (stripe_of page) 0) lsn) 16 self.old.dirty;
          faults = self.new.faults;
        }) }
        ensures later { OnOk result (self.old.faults ≤ self.new.faults) }
        ensures err { OnErr result (self.new.sound ≡ false) }
        ensures fault { IsErrOf result KeptFault.DiskFault → HasRisen self.old.faults self.new.faults }
    {
        match self.memory.take() {
            None => unreachable!(),
            Some(mut memory) => {
                match redo_to_end(memory.log.log(), &mut self.disk, &mut memory.pages) {
                    Ok(end) => {
                        self.memory = Some(memory);
                        Ok(end)
                    }
                    Err(e) => {
                        self.is_sound = false;
                        Err(e)
                    }
                }
            }
        }
    }
}
