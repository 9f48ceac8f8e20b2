//! Writing the one sector that a change of the list touches.
ghost use Rattle.std.specs.Prelude.{◌≡◌, ◌⊎◌, ◌/◌, ◌≤◌, ◌<◌, ℕ, [], ◌∷◌, IsTrue, OnOk, OnErr, IsErrOf};
ghost use Rattle.ag_outside.specs.Counts.{HasRisen};
ghost use Rattle.ag_outside.specs.Disks.{put, Only};
ghost use Rattle.ag_outside.specs.Calls.{TakesAll, FailsOnTheWay};
ghost use Rattle.ag_outside.specs.Moments.{LeavesOnly};
ghost use Rattle.ag_suspect.specs.Rows.{part_of, rows_sector};
ghost use Rattle.ag_suspect.specs.Places.{sector_with, piece_of};
ghost use Rattle.ag_suspect.specs.Saving.{IsOldOrNew};

use crate::fault::{SuspectFault, fault_of};
use crate::row::encode;
use ag_model::answer::SuspectRow;
use ag_outside::disk::{Disk, Sector};

/// The sector that has the row of a place.
fn sector_of(rows: &[SuspectRow], place: usize) -> Sector
    requires { place < 1000 }
    ensures { result ≡ rows_sector (part_of (place / 16) rows.now) }
{
    let first = (place / 16 * 16).min(rows.len());
    let (_, rest) = rows.split_at(first);
    let (part, _) = rest.split_at(rest.len().min(16));
    encode(part)
}

/// Writes the sector that has the row of a place, and syncs.
pub(crate) fn save<D: Disk>(
    disk: &mut D,
    rows: &[SuspectRow],
    place: usize,
) -> Result<(), SuspectFault>
    requires disk { 64 ≤ D.size disk.old }
    requires place { place < 1000 }
    ensures saved { OnOk result (IsTrue (D.keeps disk.old) → D.reads disk.new ≡ put (D.reads disk.old) (sector_with place rows.now)) }
    ensures durable { OnOk result (IsTrue (D.keeps disk.old) → Only (D.reads disk.new) (D.may_hold disk.new)) }
    ensures any_moment { LeavesOnly D.moment D.left_since disk.old disk.new (IsOldOrNew (D.may_hold disk.old) (sector_with place rows.now)) }
    ensures only { OnErr result ((result ≡ Err SuspectFault.DiskFault) ⊎ (result ≡ Err SuspectFault.NoMemory)) }
    ensures fault { IsErrOf result SuspectFault.DiskFault → HasRisen (D.faults disk.old) (D.faults disk.new) }
    ensures faults { D.faults disk.old ≤ D.faults disk.new }
    ensures size { D.size disk.new ≡ D.size disk.old }
    ensures keeps { D.keeps disk.new ≡ D.keeps disk.old }
    ensures calls { OnOk result (TakesAll D.did disk.old (piece_of (sector_with place rows.now) ∷ []) disk.new) }
    ensures broken { IsErrOf result SuspectFault.DiskFault → FailsOnTheWay D.did disk.old (piece_of (sector_with place rows.now) ∷ []) disk.new }
{
    let sector = sector_of(rows, place);
    match disk.write(1 + place as u32 / 16, &[sector]) {
        Ok(()) => match disk.sync() {
            Ok(()) => Ok(()),
            Err(e) => Err(fault_of(e)),
        },
        Err(e) => Err(fault_of(e)),
    }
}
