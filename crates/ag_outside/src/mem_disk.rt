//! A disk in memory, which fails at the calls that it is told.
ghost use Rattle.std.specs.Prelude.{◌≡◌, ◌↔◌, ◌+◌, ◌-◌, ◌^◌, ◌<◌, ◌≤◌, ◌++◌, ◌∷◌};
ghost use Rattle.std.specs.Prelude.{[], ℕ, Bool, IsTrue, Some, None, true, false, length, vec_len, vec_capacity, min, OnOk, OnErr, IsErr, IsErrOf, Contains, nat_eq, replicate, if◌then◌else◌};
ghost use Rattle.ag_outside.specs.declared.mem_disk.Change.TheVariants.{Wrote, Synced};
ghost use Rattle.ag_outside.specs.Counts.{HasRisen};
ghost use Rattle.ag_outside.specs.Calls.{Write_call, Read_call, Sync_call};
ghost use Rattle.ag_outside.specs.Disks.{put, put_all, writes, MayAdd, SameImages, Only, Elapses, HasCause};
ghost use Rattle.std.proofs.Common.{inl, refl, lit<};
ghost use Rattle.ag_outside.specs.MemDisks.{now_left, left_now};
ghost use Rattle.ag_outside.specs.MemDisks.{bytes_at, image_of, image_of_zeros, changes, held, left_by, mem_reads, mem_changes, mem_traced, mem_calls, mem_faults, mem_failing, mem_did, MemElapses};

use crate::disk::{Disk, DiskError, Found, Sector, SectorWrite};
use std::alloc::{AllocError, Global};
use std::collections::HashMap;

/// How many sectors a disk in memory has.
pub const SECTORS: u32 = 295_232;

/// What happened to the sectors.
#[derive(Clone, Copy, Debug)]
enum Change {
    /// A sector was written, which had these bytes before.
    Wrote(SectorWrite),
    Synced,
}

/// Sectors in memory. Those that were never written are zero and take no memory. Its calls of `write`, `read` and `sync`
/// count from 1.
#[derive(Drop)]
pub struct MemDisk {
    sectors: HashMap<u32, Sector>,
    traced: bool,
    past: Vec<Change>,
    calls: u64,
    faults: u64,
    failing: Vec<u64>,
}

/// Writes a sector, and puts down what it had.
fn put(
    sectors: &mut HashMap<u32, Sector>,
    traced: bool,
    past: &mut Vec<Change>,
    write: SectorWrite,
) -> Result<(), AllocError>
    ensures written { OnOk result (image_of sectors.new ≡ put (image_of sectors.old) write) }
    ensures past { OnOk result (past.new.items ≡ (if traced then past.old.items ++ Wrote (record { at = write.at; sector = bytes_at sectors.old write.at }) ∷ [] else past.old.items)) }
    ensures same { OnErr result (image_of sectors.new ≡ image_of sectors.old) }
    ensures same_past { OnErr result (past.new.items ≡ past.old.items) }
{
    if traced {
        past.reserve(1)?;
    }
    let before = bytes_at(sectors, write.at);
    sectors.insert(write.at, write.sector)?;
    if traced {
        past.push(Change::Wrote(SectorWrite {
            at: write.at,
            sector: before,
        }))?;
    }
    Ok(())
}

fn bytes_at(sectors: &HashMap<u32, Sector>, at: u32) -> Sector
    ensures { result ≡ bytes_at sectors.now at }
{
    match sectors.get(&at) {
        Some(sector) => *sector,
        None => [0; 512],
    }
}

/// Writes sectors one after the other, until memory is refused.
fn put_each(
    sectors: &mut HashMap<u32, Sector>,
    traced: bool,
    past: &mut Vec<Change>,
    first: u32,
    from: &[Sector],
) -> Result<(), AllocError>
    requires { first + length from.now ≤ SECTORS }
    ensures written { OnOk result (image_of sectors.new ≡ put_all (image_of sectors.old) (writes first from.now)) }
    ensures crash { MayAdd (writes first from.now) (held (image_of sectors.old) (changes traced past.old.items)) (held (image_of sectors.new) (changes traced past.new.items)) }
    ensures time { Elapses traced (length (changes traced past.old.items)) (length (changes traced past.new.items))
        (left_by (image_of sectors.old) (changes traced past.old.items)) (left_by (image_of sectors.new) (changes traced past.new.items))
        (held (image_of sectors.new) (changes traced past.new.items)) }
{
    let mut at = first;
    'sectors: for sector in from {
        put(
            sectors,
            traced,
            past,
            SectorWrite {
                at,
                sector: *sector,
            },
        )?;
        at += 1;
    }
    Ok(())
}

impl MemDisk {
    /// A disk of `SECTORS` zero sectors, which fails at the calls of these numbers. It keeps a record of its calls exactly
    /// where it is `traced`.
    pub fn new(alloc: Global, failing: Vec<u64>, traced: bool) -> MemDisk
        ensures reads { mem_reads result ≡ image_of_zeros }
        ensures traced { mem_traced result ≡ traced }
        ensures changes { mem_changes result ≡ [] }
        ensures calls { mem_calls result ≡ 0 }
        ensures faults { mem_faults result ≡ 0 }
        ensures failing { mem_failing result ≡ failing.items }
    {
        MemDisk {
            sectors: HashMap::new(alloc),
            traced,
            past: Vec::new(alloc),
            calls: 0,
            faults: 0,
            failing,
        }
    }
}

/// Counts a call, and whether it is one of those that fail.
fn fails(calls: &mut u64, faults: &mut u64, failing: &[u64]) -> bool
    ensures told { IsTrue result ↔ Contains failing.now calls.new }
    ensures calls { calls.new ≡ min (calls.old + 1) (2 ^ 64 - 1) }
    ensures later { faults.old ≤ faults.new }
    ensures risen { IsTrue result → HasRisen faults.old faults.new }
{
    *calls = calls.saturating_add(1);
    let fails = failing.contains(calls);
    if fails {
        *faults = faults.saturating_add(1);
    }
    fails
}

impl Disk for MemDisk {
    ghost use Rattle.ag_outside.specs.declared.mem_disk.TheConstants.{SECTORS};

    ghost size = { λ _. SECTORS };

    ghost keeps = { λ _. true };

    ghost reads = { mem_reads };

    ghost may_hold = { λ d. held (mem_reads d) (mem_changes d) };

    ghost traced = { mem_traced };

    ghost moment = { λ d. length (mem_changes d) };

    ghost left_since = { λ d. left_by (mem_reads d) (mem_changes d) };

    ghost faults = { mem_faults };

    ghost did = { mem_did };

    ghost reads_one = { λ d _ at. inl refl };

    ghost tells = { λ d at content held. refl };

    ghost fits = { λ d. lit< tt };

    ghost counts_now = { λ d t left le now. now_left (mem_reads d) (mem_changes d) t left le now };

    ghost only_now = { λ d left since. left_now (mem_reads d) (mem_changes d) left since };

    fn sectors(&self) -> u32 {
        SECTORS
    }

    fn write(&mut self, first: u32, from: &[Sector]) -> Result<(), DiskError>
        requires { first + length from.now ≤ SECTORS }
        ensures written { OnOk result (IsTrue true → mem_reads self.new ≡ put_all (mem_reads self.old) (writes first from.now)) }
        ensures crash { MayAdd (writes first from.now) (held (mem_reads self.old) (mem_changes self.old)) (held (mem_reads self.new) (mem_changes self.new)) }
        ensures time { MemElapses self.old self.new }
        ensures cause { HasCause (mem_faults self.old) (mem_faults self.new) result }
        ensures size { SECTORS ≡ SECTORS }
        ensures keeps { true ≡ true }
        ensures traced { mem_traced self.new ≡ mem_traced self.old }
        // It fails at the calls that it was told, and at no other.
        ensures did { mem_did self.old (Write_call first from.now result) self.new }
    {
        if fails(&mut self.calls, &mut self.faults, &self.failing) {
            return Err(DiskError::Failed);
        }
        put_each(&mut self.sectors, self.traced, &mut self.past, first, from)?;
        Ok(())
    }

    fn read(&mut self, at: u32, into: &mut Sector) -> Result<Found, DiskError>
        requires { at < SECTORS }
        ensures bytes { result ≡ Ok Found.Bytes → IsTrue true → mem_reads self.old at ≡ Some into.new }
        ensures lost { result ≡ Ok Found.Lost → IsTrue true → mem_reads self.old at ≡ None }
        ensures reads { mem_reads self.new ≡ mem_reads self.old }
        ensures crash { SameImages (held (mem_reads self.old) (mem_changes self.old)) (held (mem_reads self.new) (mem_changes self.new)) }
        ensures time { MemElapses self.old self.new }
        ensures cause { HasCause (mem_faults self.old) (mem_faults self.new) result }
        ensures size { SECTORS ≡ SECTORS }
        ensures keeps { true ≡ true }
        ensures traced { mem_traced self.new ≡ mem_traced self.old }
        // It fails at the calls that it was told, and at no other.
        ensures did { mem_did self.old (Read_call at result) self.new }
    {
        if fails(&mut self.calls, &mut self.faults, &self.failing) {
            return Err(DiskError::Failed);
        }
        *into = bytes_at(&self.sectors, at);
        Ok(Found::Bytes)
    }

    fn sync(&mut self) -> Result<(), DiskError>
        ensures durable { OnOk result (Only (mem_reads self.old) (held (mem_reads self.new) (mem_changes self.new))) }
        ensures reads { OnOk result (IsTrue true → mem_reads self.new ≡ mem_reads self.old) }
        ensures crash { MayAdd [] (held (mem_reads self.old) (mem_changes self.old)) (held (mem_reads self.new) (mem_changes self.new)) }
        ensures time { MemElapses self.old self.new }
        ensures cause { HasCause (mem_faults self.old) (mem_faults self.new) result }
        ensures size { SECTORS ≡ SECTORS }
        ensures keeps { true ≡ true }
        ensures traced { mem_traced self.new ≡ mem_traced self.old }
        // It fails at the calls that it was told, and at no other.
        ensures did { mem_did self.old (Sync_call result) self.new }
    {
        if fails(&mut self.calls, &mut self.faults, &self.failing) {
            return Err(DiskError::Failed);
        }
        if self.traced {
            self.past.push(Change::Synced)?;
        }
        Ok(())
    }
}
