//! A disk of sectors that a crash may leave in part: between two syncs each written sector holds its old bytes or any
//! bytes written to it since.
ghost use Rattle.std.specs.Prelude.{◌≡◌, ◌^◌, ◌+◌, ◌<◌, ◌≤◌, ℕ, Bool, IsTrue, Some, None, length, OnOk, []};
ghost use Rattle.ag_outside.specs.declared.disk.DiskError.TheVariants.{NoMemory};
ghost use Rattle.ag_outside.specs.Calls.{Call, Write_call, Read_call, Sync_call};
ghost use Rattle.ag_outside.specs.Disks.{Content, Image, writes, put_all, MayAdd, SameImages, Only, IsImage, Elapses, HasCause};

use std::alloc::{AllocError, AllocFailed};

/// The bytes of a sector. It is written whole or not at all.
pub type Sector = [u8; 512];

/// A sector that was written, and where. Places count from 0.
#[derive(Clone, Copy, Debug, PartialEq, Eq)]
pub struct SectorWrite {
    pub at: u32,
    pub sector: Sector,
}

/// What a read found.
#[derive(Clone, Copy, Debug, PartialEq, Eq)]
pub enum Found {
    Bytes,
    /// The sector is lost, until it is written again.
    Lost,
}

/// Why a call of a disk gave up.
#[derive(Clone, Copy, Debug, PartialEq, Eq)]
pub enum DiskError {
    /// The disk failed. Its count of faults has risen.
    Failed,
    /// Memory was refused.
    NoMemory,
}

impl From<AllocError> for DiskError {
    ghost from_gives = { λ _ e. e ≡ NoMemory };

    fn from(_: AllocError) -> DiskError {
        DiskError::NoMemory
    }
}

impl<T: Drop> From<AllocFailed<T>> for DiskError {
    ghost from_gives = { λ _ e. e ≡ NoMemory };

    fn from(_: AllocFailed<T>) -> DiskError {
        DiskError::NoMemory
    }
}

/// Sectors that are read, written and synced.
pub trait Disk {
    /// How many sectors it has.
    ghost size: { Self → ℕ };

    /// Whether it keeps to the model. One that doesn't tells nothing of its sectors.
    ghost keeps: { Self → Bool };

    /// What each sector reads.
    ghost reads: { Self → Image };

    /// What a crash now may leave in a sector. The images that it may leave have any of these in each sector.
    ghost may_hold: { Self → ℕ → Content → Type 0 };

    /// Whether it keeps a record of its calls.
    ghost traced: { Self → Bool };

    /// The moment, as a number that doesn't fall.
    ghost moment: { Self → ℕ };

    /// The images that a crash at some moment from that one on might have left. Without a record it is this moment alone.
    ghost left_since: { Self → ℕ → Image → Type 0 };

    /// How often it has failed.
    ghost faults: { Self → ℕ };

    /// What this kind of disk promises of a call beside the model.
    ghost did: { Self → Call → Self → Type 0 };

    /// How many sectors there are.
    fn sectors(&self) -> u32
        ensures { result ≡ size self.now };

    /// Writes sectors one after the other. Until a sync, a crash may leave any of them as they were.
    fn write(&mut self, first: u32, from: &[Sector]) -> Result<(), DiskError>
        requires { first + length from.now ≤ size self.old }
        ensures written { OnOk result (IsTrue (keeps self.old) → reads self.new ≡ put_all (reads self.old) (writes first from.now)) }
        ensures crash { MayAdd (writes first from.now) (may_hold self.old) (may_hold self.new) }
        ensures time { Elapses (traced self.old) (moment self.old) (moment self.new) (left_since self.old) (left_since self.new) (may_hold self.new) }
        ensures cause { HasCause (faults self.old) (faults self.new) result }
        ensures size { size self.new ≡ size self.old }
        ensures keeps { keeps self.new ≡ keeps self.old }
        ensures traced { traced self.new ≡ traced self.old }
        ensures did { did self.old (Write_call first from.now result) self.new };

    /// Reads a sector into the buffer. It changes no sector and no image, whatever it answers.
    fn read(&mut self, at: u32, into: &mut Sector) -> Result<Found, DiskError>
        requires { at < size self.old }
        ensures bytes { result ≡ Ok Found.Bytes → IsTrue (keeps self.old) → reads self.old at ≡ Some into.new }
        ensures lost { result ≡ Ok Found.Lost → IsTrue (keeps self.old) → reads self.old at ≡ None }
        ensures reads { reads self.new ≡ reads self.old }
        ensures crash { SameImages (may_hold self.old) (may_hold self.new) }
        ensures time { Elapses (traced self.old) (moment self.old) (moment self.new) (left_since self.old) (left_since self.new) (may_hold self.new) }
        ensures cause { HasCause (faults self.old) (faults self.new) result }
        ensures size { size self.new ≡ size self.old }
        ensures keeps { keeps self.new ≡ keeps self.old }
        ensures traced { traced self.new ≡ traced self.old }
        ensures did { did self.old (Read_call at result) self.new };

    /// After it, a crash leaves what is read.
    fn sync(&mut self) -> Result<(), DiskError>
        ensures durable { OnOk result (Only (reads self.old) (may_hold self.new)) }
        ensures reads { OnOk result (IsTrue (keeps self.old) → reads self.new ≡ reads self.old) }
        ensures crash { MayAdd [] (may_hold self.old) (may_hold self.new) }
        ensures time { Elapses (traced self.old) (moment self.old) (moment self.new) (left_since self.old) (left_since self.new) (may_hold self.new) }
        ensures cause { HasCause (faults self.old) (faults self.new) result }
        ensures size { size self.new ≡ size self.old }
        ensures keeps { keeps self.new ≡ keeps self.old }
        ensures traced { traced self.new ≡ traced self.old }
        ensures did { did self.old (Sync_call result) self.new };

    /// What is read is one of the images.
    ghost reads_one: { (disk : Self) → IsTrue (keeps disk) → IsImage (may_hold disk) (reads disk) };

    /// One that doesn't keep to the model tells no image.
    ghost tells: { (disk : Self) (at : ℕ) (content : Content) → may_hold disk at content → IsTrue (keeps disk) };

    /// A place fits its type.
    ghost fits: { (disk : Self) → size disk < 2 ^ 32 };

    /// This moment is one of those since an earlier one.
    ghost counts_now: { (disk : Self) (t : ℕ) (image : Image) → t ≤ moment disk → IsImage (may_hold disk) image → left_since disk t image };

    /// Since this moment there is no other.
    ghost only_now: { (disk : Self) (image : Image) → left_since disk (moment disk) image → IsImage (may_hold disk) image };
}
