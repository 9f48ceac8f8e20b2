//! What memory keeps of one page.
ghost use Rattle.std.specs.Prelude.{◌≡◌, ◌<◌, OnOk, IfErr, is_some};
ghost use Rattle.ag_version.specs.declared.fault.PutFault.TheVariants.{NoMemory};
ghost use Rattle.ag_stripe.specs.Redo.{after_record, redone, redone_slot, HasRoom, CanTake};

use ag_model::record::Record;
use ag_model::value::{Change, PageValue};
use ag_version::{PutFault, abort, put, stamp, trim};

/// The value of a page, where it was read in, and whether the page was changed since its image was written.
#[derive(Debug, Drop)]
pub struct Slot {
    pub value: Option<PageValue>,
    pub dirty: bool,
}

/// Edits a page by the record at this LSN, which touches it.
fn edit(v: &mut PageValue, lsn: u64, entry: &Record) -> Result<(), PutFault>
    ensures ok { OnOk result (v.new ≡ after_record lsn entry.now v.old) }
    ensures room { HasRoom entry.now v.old → IfErr result (λ e. e ≡ NoMemory) }
{
    match entry {
        Record::Put { txn, key, value } => put(v, lsn, *txn, *key, &Change::Put(*value))?,
        Record::Del { txn, key } => put(v, lsn, *txn, *key, &Change::Del)?,
        Record::Commit { txn, .. } => stamp(v, lsn, *txn),
        Record::Abort { txn, .. } => abort(v, lsn, *txn),
        Record::Trim { horizon, .. } => trim(v, lsn, *horizon),
        Record::Term { .. } => {}
    }
    Ok(())
}

/// Redoes the record at this LSN on a page that it touches, unless the page has it already.
fn redo_value(v: &mut PageValue, lsn: u64, entry: &Record) -> Result<(), PutFault>
    ensures ok { OnOk result (v.new ≡ redone lsn entry.now v.old) }
    ensures room { (v.old.lsn < lsn → HasRoom entry.now v.old) → IfErr result (λ e. e ≡ NoMemory) }
{
    if v.lsn < lsn {
        edit(v, lsn, entry)
    } else {
        Ok(())
    }
}

impl Slot {
    /// Redoes the record at this LSN, which touches the page. The page is dirty from then on.
    pub(crate) fn redo(&mut self, lsn: u64, entry: &Record) -> Result<(), PutFault>
        ensures ok { OnOk result (self.new ≡ redone_slot lsn entry.now self.old) }
        ensures kept { is_some self.new.value ≡ is_some self.old.value }
        ensures room { CanTake lsn entry.now self.old → IfErr result (λ e. e ≡ NoMemory) }
    {
        if let Some(v) = &mut self.value {
            redo_value(v, lsn, entry)?;
        }
        self.dirty = true;
        Ok(())
    }
}
