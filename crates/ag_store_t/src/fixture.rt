//! Stores as a test begins with them, on disks in memory.
ghost use Rattle.std.specs.Prelude.{◌≡◌, true, IfOk};
ghost use Rattle.ag_store.specs.Views.{opening_store};
ghost use Rattle.ag_store_t.specs.Parts.{new_records};

use crate::held::Held;
use ag_kept::{KeptFault, Reach};
use ag_model::event::Suffix;
use ag_model::list::ListOf;
use ag_model::message::Block;
use ag_model::record::Record;
use ag_model::value::{NoMemory, Value};
use ag_outside::mem_disk::MemDisk;
use ag_store::Store;
use std::alloc::Global;

/// A store as a group opens, with 16 pages, on a disk in memory that fails at the calls of these numbers.
fn opened(alloc: Global, failing: Vec<u64>) -> Result<Store<MemDisk>, KeptFault>
    ensures { IfOk result (λ s. s ≡ opening_store 16 0 s.faults) }
{
    let disk = MemDisk::new(alloc, failing, false);
    match Store::create(alloc, disk, 16, 0) {
        Ok(store) => Ok(store),
        Err((e, _)) => Err(e),
    }
}

/// The block after the opening one: transaction 1 puts the value of one byte, aa, at key 5, and commits. Of 16 pages, key 5 is on page 21.
pub fn block(alloc: Global) -> Result<Block, NoMemory>
    ensures { IfOk result (λ b. b ≡ record { first = 2; term = 1; records = new_records }) }
{
    let mut bytes = [0; 64];
    bytes[0] = 0xaa;
    let value = Value { len: 1, bytes };
    let mut pages = ListOf::new(alloc);
    pages.push(21)?;
    let mut records = ListOf::new(alloc);
    records.push(Record::Put {
        txn: 1,
        key: 5,
        value,
    })?;
    records.push(Record::Commit { txn: 1, pages })?;
    Ok(Block {
        first: 2,
        term: 1,
        records,
    })
}

/// Hardens that block in a store as it opens.
fn harden(alloc: Global, store: &mut Store<MemDisk>, suffix: &Suffix) -> Result<Reach, KeptFault>
    requires { store.old ≡ opening_store 16 0 store.old.faults }
    ensures { store.new.sound ≡ true → store.new.pages ≡ 16 }
{
    let block = block(alloc)?;
    match store.harden(&block, suffix) {
        Ok(reach) => Ok(reach),
        Err(e) => Err(e),
    }
}

/// A store as it opens.
pub fn open(alloc: Global, failing: Vec<u64>) -> Result<Held, KeptFault> {
    let store = opened(alloc, failing)?;
    Ok(Held::new(store))
}

/// A store that opened, and how far its first block came.
pub fn hardened(
    alloc: Global,
    failing: Vec<u64>,
    suffix: Suffix,
) -> Result<(Held, Result<Reach, KeptFault>), KeptFault> {
    let mut store = opened(alloc, failing)?;
    let reach = harden(alloc, &mut store, &suffix);
    Ok((Held::new(store), reach))
}
