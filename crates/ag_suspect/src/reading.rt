//! Reading the rows of a disk.
ghost use Rattle.std.specs.Prelude.{◌≡◌, ◌+◌, ◌/◌, ◌%◌, ◌⊎◌, ◌≤◌, ◌<◌, IsTrue, IfOk, OnOk, OnErr, IsErrOf};
ghost use Rattle.ag_outside.specs.Counts.{HasRisen};
ghost use Rattle.ag_outside.specs.Disks.{or_zeros};
ghost use Rattle.ag_suspect.specs.ReadOnly.{OnlyReads, FailsReading};
ghost use Rattle.ag_suspect.specs.Rows.{suspects_on, AreRows};

use crate::fault::{SuspectFault, fault_of};
use crate::row::row_at;
use ag_model::answer::SuspectRow;
use ag_outside::disk::{Disk, Found, Sector};
use std::alloc::Global;

/// The rows before the first free one among the first 1,000.
pub(crate) fn read_rows<D: Disk>(
    alloc: Global,
    disk: &mut D,
) -> Result<Vec<SuspectRow>, SuspectFault>
    requires place { 64 ≤ D.size disk.old }
    ensures rows { IfOk result (λ rows. IsTrue (D.keeps disk.old) → rows.items ≡ suspects_on (D.reads disk.old)) }
    ensures fit { IfOk result (λ rows. AreRows rows.items) }
    ensures stays { OnlyReads D.size D.keeps D.reads D.may_hold D.moment D.left_since D.faults D.did disk.old disk.new }
    ensures only { OnErr result ((result ≡ Err SuspectFault.DiskFault) ⊎ (result ≡ Err SuspectFault.NoMemory)) }
    ensures fault { IsErrOf result SuspectFault.DiskFault → HasRisen (D.faults disk.old) (D.faults disk.new) }
    ensures broken { IsErrOf result SuspectFault.DiskFault → FailsReading D.did disk.old disk.new }
{
    let mut rows = Vec::new(alloc);
    let mut sector = [0; 512];
    for place in 0..1000 {
        refill(disk, place, &mut sector)?;
        let row = row_at(&sector, (place % 16) as usize);
        if row.page == 0 {
            return Ok(rows);
        }
        rows.push(row)?;
    }
    Ok(rows)
}

/// Reads the sector of a place into the buffer, which has it already unless it is the sector's first place.
fn refill<D: Disk>(disk: &mut D, place: u32, sector: &mut Sector) -> Result<(), SuspectFault>
    requires place { place < 1000 }
    requires size { 64 ≤ D.size disk.old }
    requires before { IsTrue (D.keeps disk.old) → 0 < place % 16 → or_zeros (D.reads disk.old (1 + place / 16)) ≡ sector.old }
    ensures sector { OnOk result (IsTrue (D.keeps disk.old) → or_zeros (D.reads disk.old (1 + place / 16)) ≡ sector.new) }
    ensures stays { OnlyReads D.size D.keeps D.reads D.may_hold D.moment D.left_since D.faults D.did disk.old disk.new }
    ensures only { OnErr result ((result ≡ Err SuspectFault.DiskFault) ⊎ (result ≡ Err SuspectFault.NoMemory)) }
    ensures fault { IsErrOf result SuspectFault.DiskFault → HasRisen (D.faults disk.old) (D.faults disk.new) }
    ensures broken { IsErrOf result SuspectFault.DiskFault → FailsReading D.did disk.old disk.new }
{
    if place % 16 != 0 {
        return Ok(());
    }
    read_sector(disk, 1 + place / 16, sector)
}

/// Reads a sector, where a lost one counts as zeros.
fn read_sector<D: Disk>(disk: &mut D, at: u32, sector: &mut Sector) -> Result<(), SuspectFault>
    requires place { at < D.size disk.old }
    ensures sector { OnOk result (IsTrue (D.keeps disk.old) → or_zeros (D.reads disk.old at) ≡ sector.new) }
    ensures stays { OnlyReads D.size D.keeps D.reads D.may_hold D.moment D.left_since D.faults D.did disk.old disk.new }
    ensures only { OnErr result ((result ≡ Err SuspectFault.DiskFault) ⊎ (result ≡ Err SuspectFault.NoMemory)) }
    ensures fault { IsErrOf result SuspectFault.DiskFault → HasRisen (D.faults disk.old) (D.faults disk.new) }
    ensures broken { IsErrOf result SuspectFault.DiskFault → FailsReading D.did disk.old disk.new }
{
    match disk.read(at, sector) {
        Ok(Found::Bytes) => Ok(()),
        Ok(Found::Lost) => {
            *sector = [0; 512];
            Ok(())
        }
        Err(e) => Err(fault_of(e)),
    }
}
