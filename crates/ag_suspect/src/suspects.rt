//! The suspect list in memory, which is kept on a disk.
ghost use Rattle.std.specs.Prelude.{◌≡◌, ◌≢◌, ◌↔◌, ◌≤◌, ◌==◌, [], ◌∷◌, true, false, length, position, IsTrue, IfOk, OnOk, OnErr, IsErrOf};
ghost use Rattle.ag_outside.specs.Counts.{HasRisen};
ghost use Rattle.ag_outside.specs.Disks.{put, SameImages, Only, IsImage};
ghost use Rattle.ag_outside.specs.Calls.{IsReadOnly, TakesAll, FailsOnTheWay};
ghost use Rattle.ag_outside.specs.Moments.{LeavesOnly};
ghost use Rattle.ag_rules.specs.Plan.{has_row, can_note, noted, noted_row, repaired_row};
ghost use Rattle.ag_suspect.specs.Rows.{suspects_on, HasRows};
ghost use Rattle.ag_suspect.specs.Places.{row_place, repaired, noted_sector, repaired_sector, piece_of};
ghost use Rattle.ag_suspect.specs.Saving.{IsOldOrNew};

use crate::fault::SuspectFault;
use crate::reading::read_rows;
use crate::saving::save;
use ag_model::answer::{SuspectList, SuspectRow};
use ag_model::list::ListOf;
use ag_model::value::NoMemory;
use ag_outside::disk::Disk;
use std::alloc::{AllocError, Global};
use std::marker::Model;

/// How many rows the list may have.
const MOST: usize = 1000;

/// The pages that were found bad, each with its row, in order of first noting.
#[derive(Debug, Drop)]
pub struct Suspects {
    rows: Vec<SuspectRow>,
}

impl Model for Suspects {
    ghost use Rattle.std.specs.Prelude.{List};
    ghost use Rattle.ag_model.specs.declared.answer.SuspectRow.{SuspectRow};
    ghost use Rattle.ag_suspect.specs.Rows.{AreRows};

    ghost Value = { List SuspectRow };

    ghost view = { λ s. s.rows.items };

    ghost invariant = { λ s. AreRows s.rows.items };
}

/// The list of a disk: the rows before the first free one among the first 1,000 of sectors 1 to 63, where a lost sector counts
/// as zeros.
pub fn load<D: Disk>(alloc: Global, disk: &mut D) -> Result<Suspects, SuspectFault>
    requires place { 64 ≤ D.size disk.old }
    ensures loaded { IfOk result (λ s. IsTrue (D.keeps disk.old) → s ≡ suspects_on (D.reads disk.old)) }
    ensures only { result ≢ Err SuspectFault.NotNoted }
    ensures fault { IsErrOf result SuspectFault.DiskFault → HasRisen (D.faults disk.old) (D.faults disk.new) }

    // No sector and no image changes.
    ensures reads { D.reads disk.new ≡ D.reads disk.old }
    ensures crash { SameImages (D.may_hold disk.old) (D.may_hold disk.new) }
    ensures any_moment { LeavesOnly D.moment D.left_since disk.old disk.new (IsImage (D.may_hold disk.old)) }
    ensures faults { D.faults disk.old ≤ D.faults disk.new }
    ensures size { D.size disk.new ≡ D.size disk.old }
    ensures keeps { D.keeps disk.new ≡ D.keeps disk.old }

    // The disk is read, and nothing else.
    ensures calls { OnOk result (IsReadOnly D.did disk.old disk.new) }
    ensures broken { IsErrOf result SuspectFault.DiskFault → FailsOnTheWay D.did disk.old [] disk.new }
{
    let rows = read_rows(alloc, disk)?;
    Ok(Suspects { rows })
}

impl Suspects {
    /// The list without a row.
    pub fn new(alloc: Global) -> Suspects
        ensures { result ≡ [] }
    {
        Suspects {
            rows: Vec::new(alloc),
        }
    }

    /// How many rows there are.
    pub fn len(&self) -> usize
        ensures { result ≡ length self.now }
    {
        self.rows.len()
    }

    /// Whether there is none.
    pub fn is_empty(&self) -> bool
        ensures { IsTrue result ↔ (length self.now ≡ 0) }
    {
        self.rows.is_empty()
    }

    /// Whether a page has a row.
    pub fn has(&self, page: u16) -> bool
        ensures { result ≡ has_row page self.now }
    {
        self.rows.iter().any(|row| row.page == page)
    }

    /// Whether a page can be noted: it has a row, or fewer than 1,000 stand.
    pub fn can_note(&self, page: u16) -> bool
        ensures { result ≡ can_note page self.now }
    {
        self.has(page) || self.rows.len() < MOST
    }

    /// The rows.
    pub fn rows(&self) -> Result<SuspectList, NoMemory>
        ensures { IfOk result (λ rows. rows ≡ self.now) }
    {
        let rows = self.rows.clone()?;
        Ok(ListOf::from_vec(rows))
    }

    /// Notes a page with a kind, in memory and on the disk: its row counts one more and is no longer repaired, or it gets a row.
    pub fn note<D: Disk>(&mut self, disk: &mut D, page: u16, kind: u8) -> Result<(), SuspectFault>
        requires place { 64 ≤ D.size disk.old }
        requires page { 1 ≤ page }
        ensures noted { OnOk result (self.new ≡ noted page kind self.old) }

        // It is refused exactly where 1,000 rows stand and the page has none, and then the disk isn't called.
        ensures not_noted { (result ≡ Err SuspectFault.NotNoted) ↔ (can_note page self.old ≡ false) }
        ensures refused { result ≡ Err SuspectFault.NotNoted → disk.new ≡ disk.old }
        ensures unchanged { OnErr result (self.new ≡ self.old) }

        // After Ok one sector is new, and all others are as before. A disk that had the list has the new one.
        ensures saved { OnOk result (IsTrue (D.keeps disk.old) → D.reads disk.new ≡ put (D.reads disk.old) (noted_sector page kind self.old)) }
        ensures durable { OnOk result (IsTrue (D.keeps disk.old) → Only (D.reads disk.new) (D.may_hold disk.new)) }
        ensures stands { OnOk result (IsTrue (D.keeps disk.old) → HasRows (D.reads disk.old) self.old → HasRows (D.reads disk.new) self.new) }

        // A crash at any moment leaves that sector as it might have been before or new, and all others as before.
        ensures any_moment { LeavesOnly D.moment D.left_since disk.old disk.new (IsOldOrNew (D.may_hold disk.old) (noted_sector page kind self.old)) }

        ensures fault { IsErrOf result SuspectFault.DiskFault → HasRisen (D.faults disk.old) (D.faults disk.new) }
        ensures faults { D.faults disk.old ≤ D.faults disk.new }
        ensures size { D.size disk.new ≡ D.size disk.old }
        ensures keeps { D.keeps disk.new ≡ D.keeps disk.old }

        // The disk takes the sector and syncs it, or fails on the way.
        ensures calls { OnOk result (TakesAll D.did disk.old (piece_of (noted_sector page kind self.old) ∷ []) disk.new) }
        ensures broken { IsErrOf result SuspectFault.DiskFault → FailsOnTheWay D.did disk.old (piece_of (noted_sector page kind self.old) ∷ []) disk.new }
    {
        if !self.can_note(page) {
            return Err(SuspectFault::NotNoted);
        }
        let place = self.place_of(page);
        let noted_rows = self.with_noted(page, kind)?;
        save(disk, noted_rows.as_slice(), place)?;
        self.rows = noted_rows;
        Ok(())
    }

    /// Marks a page's row as repaired, in memory and on the disk, and tells whether there is one. Where there is none the disk
    /// isn't called.
    pub fn mark<D: Disk>(&mut self, disk: &mut D, page: u16) -> Result<bool, SuspectFault>
        requires place { 64 ≤ D.size disk.old }
        ensures told { IfOk result (λ there. there ≡ has_row page self.old) }
        ensures marked { OnOk result (self.new ≡ repaired page self.old) }
        ensures untouched { result ≡ Ok false → disk.new ≡ disk.old }
        ensures only { result ≢ Err SuspectFault.NotNoted }
        ensures unchanged { OnErr result (self.new ≡ self.old) }

        // Where there is a row, one sector is new then, and all others are as before. A disk that had the list has the new one.
        ensures saved { result ≡ Ok true → IsTrue (D.keeps disk.old) → D.reads disk.new ≡ put (D.reads disk.old) (repaired_sector page self.old) }
        ensures durable { result ≡ Ok true → IsTrue (D.keeps disk.old) → Only (D.reads disk.new) (D.may_hold disk.new) }
        ensures stands { OnOk result (IsTrue (D.keeps disk.old) → HasRows (D.reads disk.old) self.old → HasRows (D.reads disk.new) self.new) }

        // A crash at any moment leaves that sector as it might have been before or new, and all others as before.
        ensures any_moment { LeavesOnly D.moment D.left_since disk.old disk.new (IsOldOrNew (D.may_hold disk.old) (repaired_sector page self.old)) }

        ensures fault { IsErrOf result SuspectFault.DiskFault → HasRisen (D.faults disk.old) (D.faults disk.new) }
        ensures faults { D.faults disk.old ≤ D.faults disk.new }
        ensures size { D.size disk.new ≡ D.size disk.old }
        ensures keeps { D.keeps disk.new ≡ D.keeps disk.old }

        // The disk takes the sector and syncs it, or fails on the way.
        ensures calls { result ≡ Ok true → TakesAll D.did disk.old (piece_of (repaired_sector page self.old) ∷ []) disk.new }
        ensures broken { IsErrOf result SuspectFault.DiskFault → FailsOnTheWay D.did disk.old (piece_of (repaired_sector page self.old) ∷ []) disk.new }
    {
        if !self.has(page) {
            return Ok(false);
        }
        let place = self.place_of(page);
        let rows = self.with_repaired(page)?;
        save(disk, rows.as_slice(), place)?;
        self.rows = rows;
        Ok(true)
    }

    /// The place of a page's row, or the one behind the last.
    fn place_of(&self, page: u16) -> usize
        ensures { result ≡ row_place page self.now }
    {
        first_place(self.rows.as_slice(), page).unwrap_or(self.rows.len())
    }

    /// The rows once a page is noted.
    fn with_noted(&self, page: u16, kind: u8) -> Result<Vec<SuspectRow>, AllocError>
        requires { can_note page self.now ≡ true }
        ensures { IfOk result (λ rows. rows.items ≡ noted page kind self.now) }
    {
        let mut rows = Vec::new(*self.rows.allocator());
        for row in &self.rows {
            rows.push(noted_row(*row, page, kind))?;
        }
        if !self.has(page) {
            rows.push(SuspectRow {
                page,
                kind,
                repaired: false,
                count: 1,
            })?;
        }
        Ok(rows)
    }

    /// The rows once a page's row is marked as repaired.
    fn with_repaired(&self, page: u16) -> Result<Vec<SuspectRow>, AllocError>
        ensures { IfOk result (λ rows. rows.items ≡ repaired page self.now) }
    {
        let mut rows = Vec::new(*self.rows.allocator());
        for row in &self.rows {
            rows.push(repaired_row(*row, page))?;
        }
        Ok(rows)
    }
}

/// Where the first row of a page stands.
fn first_place(rows: &[SuspectRow], page: u16) -> Option<usize>
    ensures { result ≡ position (λ row. row.page == page) rows.now }
{
    rows.iter().position(|row| row.page == page)
}

/// A row once a page was noted.
fn noted_row(row: SuspectRow, page: u16, kind: u8) -> SuspectRow
    ensures { result ≡ noted_row page kind row }
{
    if row.page != page {
        return row;
    }
    SuspectRow {
        kind,
        repaired: false,
        count: row.count.saturating_add(1),
        ..row
    }
}

/// A row once a page was repaired.
fn repaired_row(row: SuspectRow, page: u16) -> SuspectRow
    ensures { result ≡ repaired_row page row }
{
    if row.page != page {
        return row;
    }
    SuspectRow {
        repaired: true,
        ..row
    }
}
