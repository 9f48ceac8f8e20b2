//! A replica as its group opens.
ghost use Rattle.std.specs.Prelude.{◌≡◌, ◌≤◌, ◌∷◌, [], ℕ, Some, true, false, replicate, if◌then◌else◌, IfOk, IfErr};
ghost use Rattle.ag_outside.specs.Counts.{HasRisen};
ghost use Rattle.ag_outside.specs.Shown.{reads_of};
ghost use Rattle.ag_keeping.specs.Keeping.{rules_master};
ghost use Rattle.ag_durable.specs.Views.{kept_of};
ghost use Rattle.ag_model.specs.declared.record.Record.TheVariants.{Term};
ghost use Rattle.ag_record.specs.Spelling.{ArePayload};
ghost use Rattle.ag_logstore.specs.Stored.{log_end};
ghost use Rattle.ag_kept.specs.Standing.{IsBlank};
ghost use Rattle.ag_replica.specs.Ups.{IsUp, replica_of};
ghost use Rattle.ag_replica.specs.Opening.{opened_replica, opened_pool, IsOpened};

use crate::fault::ReplicaFault;
use crate::following::Following;
use crate::leading::Leading;
use crate::up::{Standing, Up};
use ag_durable::{Came, Durable};
use ag_model::list::ListOf;
use ag_model::message::Block;
use ag_model::record::Record;
use ag_model::value::NoMemory;
use ag_outside::disk::Disk;
use ag_outside::scripted::Scripted;
use ag_pool::Pool;
use ag_stripe::laws::images;
use std::alloc::Global;

/// The block that starts the first term.
fn first_block(alloc: Global) -> Result<Block, NoMemory>
    ensures is { IfOk result (λ b. b ≡ record { first = 1; term = 1; records = Term 1 ∷ [] }) }
    ensures payload { IfOk result (λ b. ArePayload b.records) }
{
    let mut records = ListOf::new(alloc);
    records.push(Record::Term { term: 1 })?;
    Ok(Block {
        first: 1,
        term: 1,
        records,
    })
}

/// What memory has at the opening: the pages, with nothing read in, and the block that starts the first term.
fn memory(alloc: Global, pages: u16) -> Result<(Pool, Block), NoMemory>
    requires low { 16 ≤ pages }
    requires high { pages ≤ 2048 }
    ensures pool { IfOk result (λ m. m.0 ≡ opened_pool pages) }
    ensures block { IfOk result (λ m. m.1 ≡ record { first = 1; term = 1; records = Term 1 ∷ [] }) }
    ensures payload { IfOk result (λ m. ArePayload m.1.records) }
{
    let pool = Pool::new(alloc, pages, 1)?;
    let block = first_block(alloc)?;
    Ok((pool, block))
}

/// What the disk keeps is what memory has of it.
fn agrees<D: Disk>(durable: &Durable<D>)
    requires underway { durable.now.progress.came ≡ Came.Underway }
    ensures log { (kept_of D.reads durable.now).log ≡ durable.now.log.log }
    ensures master { (kept_of D.reads durable.now).master ≡ rules_master durable.now.master }
    ensures suspects { (kept_of D.reads durable.now).suspects ≡ durable.now.suspects }
{
    let _ = durable.log();
    let _ = durable.master();
    let _ = durable.suspects();
}

/// Formats a disk of zeros, and writes the block that starts the first term.
#[tactic(auto, using(crate::proofs::Quiet::risen_since))]
fn formatted<D: Disk>(
    alloc: Global,
    pages: u16,
    number: u8,
    block: &Block,
    disk: Scripted<D>,
) -> Result<Durable<D>, (ReplicaFault, Scripted<D>)>
    requires low { 16 ≤ pages }
    requires high { pages ≤ 2048 }
    requires room { log_end ≤ D.size disk.disk }
    requires blank { IsBlank D.keeps D.reads disk }
    requires zeros { (at : ℕ) → reads_of D.reads disk at ≡ Some (replicate 512 0) }
    requires block { block.now ≡ record { first = 1; term = 1; records = Term 1 ∷ [] } }
    requires payload { ArePayload block.now.records }
    ensures opened { IfOk result (λ v. IsOpened D.reads pages v) }
    ensures fault { IfErr result (λ x. x.0 ≡ ReplicaFault.DiskFault → HasRisen (D.faults disk.disk) (D.faults x.1.disk)) }
{
    let mut durable = match Durable::format(alloc, disk, pages, number) {
        Ok(durable) => durable,
        Err((e, disk)) => return Err((ReplicaFault::from(e), disk)),
    };
    agrees(&durable);
    images();
    match durable.append(block) {
        Ok(()) => Ok(durable),
        Err(e) => Err((ReplicaFault::from(e), durable.into_disk())),
    }
}

/// The state of a replica at the opening.
fn state_of(leads: bool) -> u8
    ensures { result ≡ (if leads then 0 else 1) }
{
    if leads { 0 } else { 1 }
}

impl<D: Disk> Up<D> {
    /// A replica with this number and so many data pages as its group opens, over a disk of zeros: it leads, or follows the
    /// primary, and knows this as primary. The disk comes back where it fails.
    pub fn opened(
        alloc: Global,
        pages: u16,
        number: u8,
        leads: bool,
        leading: Leading,
        disk: Scripted<D>,
    ) -> Result<Up<D>, (ReplicaFault, Scripted<D>)>
        requires low { 16 ≤ pages }
        requires high { pages ≤ 2048 }
        requires room { log_end ≤ D.size disk.disk }
        requires blank { IsBlank D.keeps D.reads disk }
        requires zeros { (at : ℕ) → reads_of D.reads disk at ≡ Some (replicate 512 0) }
        ensures replica { IfOk result (λ u. replica_of D.reads u ≡ opened_replica pages leads leading) }
        ensures up { IfOk result (λ u. IsUp D.reads false u) }
        ensures appends { IfOk result (λ u. u.durable.appends ≡ true) }
        ensures fault { IfErr result (λ x. x.0 ≡ ReplicaFault.DiskFault → HasRisen (D.faults disk.disk) (D.faults x.1.disk)) }
    {
        let (pool, block) = match memory(alloc, pages) {
            Ok(memory) => memory,
            Err(NoMemory) => return Err((ReplicaFault::NoMemory, disk)),
        };
        match formatted(alloc, pages, number, &block, disk) {
            Ok(durable) => Ok(Up {
                durable,
                pool,
                standing: Standing {
                    cut_off: false,
                    leads,
                    term: 1,
                    state: state_of(leads),
                },
                following: Following::none(alloc),
                leading,
            }),
            Err(failed) => Err(failed),
        }
    }
}
