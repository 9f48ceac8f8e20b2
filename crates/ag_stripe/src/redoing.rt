//! Redo of records on the pages that were read in.
ghost use Rattle.std.specs.Prelude.{◌≡◌, ◌+◌, ◌<◌, ◌^◌, ◌&&◌, ◌||◌, ℕ, true, length, if◌then◌else◌, IfOk, OnOk, IfErr};
ghost use Rattle.ag_model.specs.declared.record.Log.{Log};
ghost use Rattle.ag_model.specs.Rows.{contains, touches};
ghost use Rattle.ag_stripe.specs.Tables.{is_own, slot_of, is_dirty, IsSameTable};
ghost use Rattle.ag_stripe.specs.Known.{Told, known};
ghost use Rattle.ag_stripe.specs.Ahead.{IsAhead, AreNext};
ghost use Rattle.ag_stripe.specs.Redo.{redone_slot, is_touched, OnlyEdits, IsRefusal, AreKept, IsUnlawful};

use crate::fault::StripeFault;
use crate::table::PageTable;
use ag_model::page::page_of;
use ag_model::record::Record;

/// Redoes the record at this LSN on each of the pages that it lists.
fn redo_listed(
    table: &mut PageTable,
    pages: &[u16],
    lsn: u64,
    entry: &Record,
) -> Result<(), StripeFault>
    requires { (q : ℕ) → touches table.old.pages q entry.now ≡ contains q pages.now }
    ensures same { IsSameTable table.old table.new }
    ensures redone { OnOk result ((q : ℕ) → slot_of table.new q
        ≡ (if is_own table.old q && contains q pages.now then redone_slot lsn entry.now (slot_of table.old q) else slot_of table.old q)) }
    ensures edits { OnlyEdits table.old table.new (λ q. is_own table.old q && touches table.old.pages q entry.now) }
    ensures refused { IfErr result (IsRefusal lsn entry.now table.old) }
{
    for page in pages {
        table.redo_on(*page, lsn, entry)?;
    }
    Ok(())
}

/// Redoes the record at this LSN on each page of the stripe that it touches.
fn redo(table: &mut PageTable, lsn: u64, entry: &Record) -> Result<(), StripeFault>
    ensures same { IsSameTable table.old table.new }
    ensures redone { OnOk result ((q : ℕ) → slot_of table.new q
        ≡ (if is_own table.old q && touches table.old.pages q entry.now then redone_slot lsn entry.now (slot_of table.old q) else slot_of table.old q)) }
    ensures edits { OnlyEdits table.old table.new (λ q. is_own table.old q && touches table.old.pages q entry.now) }
    ensures refused { IfErr result (IsRefusal lsn entry.now table.old) }
{
    let pages = table.pages();
    match entry {
        Record::Put { key, .. } => table.redo_on(page_of(pages, *key), lsn, entry),
        Record::Del { key, .. } => table.redo_on(page_of(pages, *key), lsn, entry),
        Record::Commit { pages, .. } => redo_listed(table, pages.as_slice(), lsn, entry),
        Record::Abort { pages, .. } => redo_listed(table, pages.as_slice(), lsn, entry),
        Record::Trim { page, .. } => table.redo_on(*page, lsn, entry),
        Record::Term { .. } => Ok(()),
    }
}

/// Redoes the records that come after an LSN, and answers the last LSN. Each page that they touch was read in.
pub(crate) fn redo_all(
    table: &mut PageTable,
    applied: u64,
    records: &[Record],
) -> Result<u64, StripeFault>
    requires { applied + length records.now < 2 ^ 64 }
    ensures end { IfOk result (λ end. end ≡ applied + length records.now) }
    ensures same { IsSameTable table.old table.new }
    ensures dirty { OnOk result ((q : ℕ) → is_dirty table.new q ≡ (is_dirty table.old q || is_touched table.old records.now q)) }
    ensures values { OnOk result ((told : Told) (log : Log) (page : ℕ) → AreNext table.old.pages applied log records.now → AreKept table.old records.now → is_own table.old page ≡ true
        → IsAhead table.old.pages log applied page (known told table.old page) → IsAhead table.old.pages log (applied + length records.now) page (known told table.new page)) }
    ensures edits { OnlyEdits table.old table.new (is_touched table.old records.now) }
    ensures refused { IfErr result (IsUnlawful table.old applied records.now) }
{
    let mut lsn = applied;
    for entry in records {
        lsn += 1;
        redo(table, lsn, entry)?;
    }
    Ok(lsn)
}
