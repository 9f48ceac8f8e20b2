//! A master in place of the one that is there.
ghost use Rattle.std.specs.Prelude.{◌≡◌, ◌⊎◌, ◌≤◌, ◌<◌, ◌^◌, ◌∷◌, [], true, length, Contains, OnOk, OnErr, IsErr, IsErrOf};
ghost use Rattle.ag_outside.specs.Counts.{HasRisen};
ghost use Rattle.ag_master.specs.Spelling.{IsKept, HasSpelling};
ghost use Rattle.ag_rules.specs.Plan.{Master_write};
ghost use Rattle.ag_writes.specs.Writes.{master_of};
ghost use Rattle.ag_keeping.specs.Cutting.{sector_master, CanCut};
ghost use Rattle.ag_durable.specs.Coming.{Performs};
ghost use Rattle.ag_durable.specs.Following.{appends_after, Follows};

use crate::durable::Durable;
use crate::fault::DurableFault;
use crate::progress::{Came, after_step};
use ag_logstore::LogStore;
use ag_master::{Master, MasterFault, save};
use ag_outside::disk::Disk;
use ag_writes::MasterWords;

/// The sector's master that says these words, with the log cut at an LSN.
fn sector_master(old: &Master, words: &MasterWords, log_end: u64) -> Master
    ensures { result ≡ sector_master old.now (master_of words.now) log_end }
{
    Master {
        format: 1,
        state: words.state,
        incarnation: words.incarnation,
        term: words.term,
        cut: if words.incarnation == old.incarnation {
            old.cut
        } else {
            log_end
        },
        undo: words.undo,
        redo: words.redo_start,
        pages: old.pages,
        replica: old.replica,
        foreign: words.foreign,
    }
}

/// These numbers have 64 bits, and the number of pages 16.
fn numbers_fit(incarnation: u64, term: u64, cut: u64, undo: u64, redo: u64, pages: u16)
    ensures { (incarnation < 2 ^ 64) × (term < 2 ^ 64) × (cut < 2 ^ 64) × (undo < 2 ^ 64) × (redo < 2 ^ 64) × (pages < 2 ^ 16) }
{
    let _ = (incarnation, term, cut, undo, redo, pages);
}

/// A sector can have this master.
fn has_spelling(m: &Master)
    requires kept { IsKept m.now }
    ensures fits { HasSpelling m.now }
{
    numbers_fit(m.incarnation, m.term, m.cut, m.undo, m.redo, m.pages);
    let _ = m.foreign.to_bytes();
}

/// Whether the disk took a master.
fn taken(saved: Result<(), MasterFault>) -> Result<(), DurableFault>
    ensures refused { OnErr saved (IsErr result) }
    ensures fault { IsErrOf result DurableFault.DiskFault → IsErrOf saved MasterFault.DiskFault }
{
    match saved {
        Ok(()) => Ok(()),
        Err(MasterFault::DiskFault) => Err(DurableFault::DiskFault),
        Err(MasterFault::NoMemory) => Err(DurableFault::NoMemory),
    }
}

/// Memory takes a master that the disk took.
fn follow(
    log: &mut LogStore,
    master: &mut Master,
    appends: &mut bool,
    went: &Result<(), DurableFault>,
    next: Master,
    log_end: u64,
)
    requires block { master.old.incarnation < next.incarnation → (log_end ≡ 0) ⊎ Contains log.old.log.ends log_end }
    requires same { log.old.incarnation ≡ master.old.incarnation }
    ensures went { OnOk went.now (Follows master.old log.old appends.old next log_end master.new log.new appends.new) }
    ensures kept { OnErr went.now ((master.new ≡ master.old) × (log.new ≡ log.old) × (appends.new ≡ appends.old)) }
{
    if went.is_err() {
        return;
    }
    if master.incarnation < next.incarnation {
        log.cut(log_end, next.incarnation);
        *appends = true;
    }
    *master = next;
}

impl<D: Disk> Durable<D> {
    /// Writes what the master is to say, and cuts the log at an LSN: at its own end, or, with a higher incarnation, at a block's end.
    pub fn save(&mut self, words: &MasterWords, log_end: u64) -> Result<(), DurableFault>
        requires underway { self.old.progress.came ≡ Came.Underway }
        requires state { (words.now.state ≡ 0) ⊎ (words.now.state ≡ 3) ⊎ (words.now.state ≡ 4) }
        requires cut { CanCut self.old.master self.old.log.log (master_of words.now) log_end }
        ensures performs { OnOk result (Performs D.reads self.old (Master_write (master_of words.now) log_end ∷ []) self.new) }
        ensures appends { self.new.progress.came ≡ Came.Underway → self.new.appends ≡ appends_after self.old.master self.old.appends (sector_master self.old.master (master_of words.now) log_end) }
        ensures later { OnOk result (D.faults self.old.disk.disk ≤ D.faults self.new.disk.disk) }
        ensures fault { IsErrOf result DurableFault.DiskFault → HasRisen (D.faults self.old.disk.disk) (D.faults self.new.disk.disk) }
    {
        let next = sector_master(&self.master, words, log_end);
        has_spelling(&next);
        let went = taken(save(&mut self.disk, &next));
        follow(
            &mut self.log,
            &mut self.master,
            &mut self.appends,
            &went,
            next,
            log_end,
        );
        after_step(&mut self.progress, went, self.disk.why(), 1)
    }
}
