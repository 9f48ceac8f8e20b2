//! The master on a disk.
ghost use Rattle.std.specs.Prelude.{◌≡◌, ◌⊎◌, ◌≤◌, [], ◌∷◌, ℕ, IsTrue, Some, IfOk, OnOk, IsErrOf};
ghost use Rattle.ag_outside.specs.Counts.{HasRisen};
ghost use Rattle.ag_outside.specs.Disks.{or_zeros, Image, put, MayAdd, SameImages, Only, IsImage};
ghost use Rattle.ag_outside.specs.Calls.{Piece, TakesAll, FailsOnTheWay, IsReadOnly};
ghost use Rattle.ag_outside.specs.Moments.{LeavesOnly};
ghost use Rattle.ag_master.specs.Spelling.{spelling, IsKept};
ghost use Rattle.ag_master.specs.Loading.{IsLoaded, IsOldOrNew};

use crate::master::Master;
use crate::sector::{Loaded, decode, encode};
use ag_outside::disk::{Disk, DiskError, Found};

/// Why a master was neither loaded nor saved.
#[derive(Clone, Copy, Debug, PartialEq, Eq)]
pub enum MasterFault {
    /// The disk failed. Its count of faults has risen.
    DiskFault,
    NoMemory,
}

/// The fault of a disk's error.
fn fault(e: DiskError) -> MasterFault
    ensures failed { result ≡ MasterFault.DiskFault → e ≡ DiskError.Failed }
{
    match e {
        DiskError::Failed => MasterFault::DiskFault,
        DiskError::NoMemory => MasterFault::NoMemory,
    }
}

/// The master of sector 0, where a lost sector counts as zeros.
pub fn load<D: Disk>(disk: &mut D) -> Result<Loaded, MasterFault>
    requires { 1 ≤ D.size disk.old }
    ensures loaded { IfOk result (λ l. IsTrue (D.keeps disk.old) → IsLoaded (or_zeros (D.reads disk.old 0)) l) }
    ensures reads { D.reads disk.new ≡ D.reads disk.old }
    ensures crash { SameImages (D.may_hold disk.old) (D.may_hold disk.new) }
    ensures fault { IsErrOf result MasterFault.DiskFault → HasRisen (D.faults disk.old) (D.faults disk.new) }
    ensures faults { D.faults disk.old ≤ D.faults disk.new }
    ensures size { D.size disk.new ≡ D.size disk.old }
    ensures keeps { D.keeps disk.new ≡ D.keeps disk.old }

    // The disk is read, and nothing else.
    ensures calls { OnOk result (IsReadOnly D.did disk.old disk.new) }
    ensures broken { IsErrOf result MasterFault.DiskFault → FailsOnTheWay D.did disk.old [] disk.new }
{
    let mut sector = [0; 512];
    match disk.read(0, &mut sector) {
        Ok(Found::Bytes) => Ok(decode(&sector)),
        Ok(Found::Lost) => Ok(decode(&[0; 512])),
        Err(e) => Err(fault(e)),
    }
}

/// Writes the master into sector 0, and syncs.
pub fn save<D: Disk>(disk: &mut D, m: &Master) -> Result<(), MasterFault>
    requires place { 1 ≤ D.size disk.old }
    requires kept { IsKept m.now }

    // After Ok sector 0 is the new master, and all others are as before.
    ensures saved { OnOk result (IsTrue (D.keeps disk.old) → D.reads disk.new ≡ put (D.reads disk.old) (record { at = 0; sector = spelling m.now })) }
    ensures durable { OnOk result (IsTrue (D.keeps disk.old) → Only (D.reads disk.new) (D.may_hold disk.new)) }

    // A crash at any moment leaves sector 0 as it might have been before or with the new master, and all others as before.
    ensures any_moment { LeavesOnly D.moment D.left_since disk.old disk.new (IsOldOrNew (D.may_hold disk.old) m.now) }

    ensures fault { IsErrOf result MasterFault.DiskFault → HasRisen (D.faults disk.old) (D.faults disk.new) }
    ensures faults { D.faults disk.old ≤ D.faults disk.new }
    ensures size { D.size disk.new ≡ D.size disk.old }
    ensures keeps { D.keeps disk.new ≡ D.keeps disk.old }

    // The disk takes the sector and syncs it, or fails on the way.
    ensures calls { OnOk result (TakesAll D.did disk.old (record { first = 0; sectors = spelling m.now ∷ [] } ∷ []) disk.new) }
    ensures broken { IsErrOf result MasterFault.DiskFault → FailsOnTheWay D.did disk.old (record { first = 0; sectors = spelling m.now ∷ [] } ∷ []) disk.new }
{
    match disk.write(0, &[encode(m)]) {
        Ok(()) => match disk.sync() {
            Ok(()) => Ok(()),
            Err(e) => Err(fault(e)),
        },
        Err(e) => Err(fault(e)),
    }
}
