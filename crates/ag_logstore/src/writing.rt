//! Sectors written and synced.
ghost use Rattle.std.specs.Prelude.{◌≡◌, ◌⊎◌, ◌+◌, ◌≤◌, [], ◌∷◌, ℕ, length, IsTrue, OnOk, OnErr, IsErrOf};
ghost use Rattle.ag_outside.specs.Counts.{HasRisen};
ghost use Rattle.ag_outside.specs.Disks.{Image, writes, put_all, WroteSo, MayAdd, Only};
ghost use Rattle.ag_outside.specs.Moments.{LeavesOnly};
ghost use Rattle.ag_outside.specs.Calls.{TakesAll, FailsOnTheWay};

use crate::fault::{LogFault, fault_of};
use ag_outside::disk::{Disk, Sector};

/// Writes sectors one after the other in one call, and syncs.
pub(crate) fn write_synced<D: Disk>(
    disk: &mut D,
    first: u32,
    sectors: &[Sector],
) -> Result<(), LogFault>
    requires { first + length sectors.now ≤ D.size disk.old }
    ensures written { OnOk result (IsTrue (D.keeps disk.old) → D.reads disk.new ≡ put_all (D.reads disk.old) (writes first sectors.now)) }
    ensures durable { OnOk result (IsTrue (D.keeps disk.old) → Only (D.reads disk.new) (D.may_hold disk.new)) }
    ensures any_moment { LeavesOnly D.moment D.left_since disk.old disk.new (λ image. (at : ℕ) → D.may_hold disk.old at (image at) ⊎ WroteSo (writes first sectors.now) at (image at)) }
    ensures fault { IsErrOf result LogFault.DiskFault → HasRisen (D.faults disk.old) (D.faults disk.new) }
    ensures only { OnErr result ((result ≡ Err LogFault.DiskFault) ⊎ (result ≡ Err LogFault.NoMemory)) }
    ensures faults { D.faults disk.old ≤ D.faults disk.new }
    ensures size { D.size disk.new ≡ D.size disk.old }
    ensures keeps { D.keeps disk.new ≡ D.keeps disk.old }
    ensures calls { OnOk result (TakesAll D.did disk.old (record { first = first; sectors = sectors.now } ∷ []) disk.new) }
    ensures broken { IsErrOf result LogFault.DiskFault → FailsOnTheWay D.did disk.old (record { first = first; sectors = sectors.now } ∷ []) disk.new }
{
    match disk.write(first, sectors) {
        Ok(()) => match disk.sync() {
            Ok(()) => Ok(()),
            Err(e) => Err(fault_of(e)),
        },
        Err(e) => Err(fault_of(e)),
    }
}
