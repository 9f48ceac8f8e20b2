//! The pages of a node.
ghost use Rattle.std.specs.Prelude.{◌≡◌, ◌-◌, ◌≤◌, ◌<◌, [], true, length, get_or, Err, IfOk, IfErr, OnOk, OnErr, IsErrOf};
ghost use Rattle.ag_model.specs.Blocks.{next_end};
ghost use Rattle.ag_model.specs.Page.{value};
ghost use Rattle.ag_model.specs.Rows.{page_of, rows, stripe_of};
ghost use Rattle.ag_rules.specs.Replica.{least};
ghost use Rattle.ag_outside.specs.Counts.{HasRisen};
ghost use Rattle.ag_store.specs.Asking.{IsTooOldBy};
ghost use Rattle.ag_store.specs.Standing.{IsDataPage};
ghost use Rattle.ag_store.specs.declared.fault.ReadFault.TheVariants.{Gave};
ghost use Rattle.ag_kept.specs.declared.fault.KeptFault.TheVariants.{DiskFault as DiskFailed};
ghost use Rattle.ag_node.specs.Homes.{applied_home, but_faults, flushed_home, lost_home, redone_home, LeavesHome};

use super::Home;
use crate::fault::NodeFault;
use ag_model::answer::Cell;
use ag_model::value::{PageValue, Row};
use ag_outside::disk::Disk;
use ag_store::ReadFault;

impl<D: Disk> Home<D> {
    /// The redo start in the master, an LSN.
    pub(crate) fn redo_start(&self) -> u64
        requires up { self.now.activity.up ≡ true }
        ensures { result ≡ self.now.redo }
    {
        self.store.redo_start()
    }

    /// The LSN to which a stripe was redone.
    pub(crate) fn applied(&self, stripe: u8) -> u64
        requires up { self.now.activity.up ≡ true }
        requires stripe { stripe < 16 }
        ensures { result ≡ get_or self.now.applied stripe 0 }
    {
        self.store.applied(stripe)
    }

    /// The least LSN to which a stripe was redone.
    pub(crate) fn least_applied(&self) -> u64
        requires up { self.now.activity.up ≡ true }
        ensures { result ≡ least self.now.applied }
    {
        self.store.least_applied()
    }

    /// Applies the log to all stripes, to its end, and answers that.
    pub(crate) fn redo(&mut self) -> Result<u64, NodeFault>
        requires up { self.old.activity.up ≡ true }
        ensures lsn { IfOk result (λ lsn. lsn ≡ length self.old.log.records) }
        ensures home { IfOk result (λ lsn. self.new ≡ but_faults (redone_home self.old lsn) self.new.faults) }
        ensures later { OnOk result (self.old.faults ≤ self.new.faults) }
        ensures lost { OnErr result (self.new ≡ lost_home self.old.pages self.new.faults) }
        ensures fault { IsErrOf result NodeFault.DiskFault → HasRisen self.old.faults self.new.faults }
    {
        match self.store.redo() {
            Ok(lsn) => Ok(lsn),
            Err(fault) => Err(NodeFault::from(fault)),
        }
    }

    /// Applies the next block of the log to a stripe, and answers where it stands then.
    pub(crate) fn apply_next(&mut self, stripe: u8) -> Result<u64, NodeFault>
        requires up { self.old.activity.up ≡ true }
        requires stripe { stripe < 16 }
        ensures lsn { IfOk result (λ lsn. lsn ≡ next_end (get_or self.old.applied stripe 0) self.old.log.ends) }
        ensures home { IfOk result (λ lsn. self.new ≡ but_faults (applied_home self.old stripe lsn) self.new.faults) }
        ensures lost { OnErr result (self.new ≡ lost_home self.old.pages self.new.faults) }
        ensures fault { IsErrOf result NodeFault.DiskFault → HasRisen self.old.faults self.new.faults }
    {
        match self.store.apply_next(stripe) {
            Ok(lsn) => Ok(lsn),
            Err(fault) => Err(NodeFault::from(fault)),
        }
    }

    /// Writes the dirty pages, and then the master with the least LSN to which a stripe was redone. It answers that.
    pub(crate) fn flush(&mut self) -> Result<u64, NodeFault>
        requires up { self.old.activity.up ≡ true }
        ensures lsn { IfOk result (λ lsn. lsn ≡ least self.old.applied) }
        ensures home { OnOk result (self.new ≡ but_faults (flushed_home self.old) self.new.faults) }
        ensures lost { OnErr result (self.new ≡ lost_home self.old.pages self.new.faults) }
        ensures fault { IsErrOf result NodeFault.DiskFault → HasRisen self.old.faults self.new.faults }
    {
        match self.store.flush() {
            Ok(lsn) => Ok(lsn),
            Err(fault) => Err(NodeFault::from(fault)),
        }
    }

    /// The row of a key at a snapshot, an LSN up to which the stripe of its page was redone. TooOld says that the snapshot is
    /// below the horizon of the page.
    pub(crate) fn row_at(&mut self, key: u32, snapshot: u64) -> Result<Row, ReadFault>
        requires up { self.old.activity.up ≡ true }
        requires redone { snapshot ≤ get_or self.old.applied (stripe_of (page_of self.old.pages key)) 0 }
        ensures row { IfOk result (λ row. row ≡ rows self.old.log.records snapshot key) }
        ensures young { OnOk result ((value self.old.pages self.old.log.records (get_or self.old.applied (stripe_of (page_of self.old.pages key)) 0) (page_of self.old.pages key)).horizon ≤ snapshot) }
        ensures too_old { IfErr result (λ e. IsTooOldBy snapshot
            (value self.old.pages self.old.log.records (get_or self.old.applied (stripe_of (page_of self.old.pages key)) 0) (page_of self.old.pages key)).horizon e) }
        ensures home { OnOk result (self.new ≡ but_faults self.old self.new.faults) }
        ensures left { IfErr result (λ e. LeavesHome self.old self.new e) }
        ensures fault { result ≡ Err (Gave DiskFailed) → HasRisen self.old.faults self.new.faults }
    {
        match self.store.row_at(key, snapshot) {
            Ok(row) => Ok(row),
            Err(fault) => Err(fault),
        }
    }

    /// The value of a page where its stripe stands.
    pub(crate) fn value_of(&mut self, page: u16) -> Result<PageValue, NodeFault>
        requires up { self.old.activity.up ≡ true }
        requires page { IsDataPage self.old.pages page }
        ensures value { IfOk result (λ v. v ≡ value self.old.pages self.old.log.records (get_or self.old.applied (stripe_of page) 0) page) }
        ensures home { OnOk result (self.new ≡ but_faults self.old self.new.faults) }
        ensures lost { OnErr result (self.new ≡ lost_home self.old.pages self.new.faults) }
        ensures fault { IsErrOf result NodeFault.DiskFault → HasRisen self.old.faults self.new.faults }
    {
        match self.store.value_of(page) {
            Ok(value) => Ok(value),
            Err(fault) => Err(NodeFault::from(fault)),
        }
    }

    /// The cells of a page's image. The node may be down; one that gave up before answers NoMemory.
    pub(crate) fn cells_of(&mut self, page: u16) -> Result<[Cell; 16], NodeFault>
        requires page { IsDataPage self.old.pages page }
        ensures cells { IfOk result (λ cells. cells ≡ get_or self.old.cells (page - 16) []) }
        ensures home { OnOk result (self.new ≡ but_faults self.old self.new.faults) }
        ensures lost { OnErr result (self.new ≡ lost_home self.old.pages self.new.faults) }
        ensures fault { IsErrOf result NodeFault.DiskFault → HasRisen self.old.faults self.new.faults }
    {
        if !self.store.is_sound() {
            return Err(NodeFault::NoMemory);
        }
        match self.store.cells_of(page) {
            Ok(cells) => Ok(cells),
            Err(fault) => Err(NodeFault::from(fault)),
        }
    }
}
