//! The blocks that are dispatched.
ghost use Rattle.std.specs.Prelude.{◌≡◌, ◌+◌, ◌%◌, ◌∷◌, [], IfOk};
ghost use Rattle.ag_model.specs.declared.record.Record.TheVariants.{Put, Commit, Trim};
ghost use Rattle.ag_model.specs.declared.value.Value.{Value};

use ag_model::list::ListOf;
use ag_model::message::Block;
use ag_model::record::Record;
use ag_model::value::{NoMemory, Value};
use std::alloc::Global;

/// What a transaction puts: a value of two bytes at a key.
#[derive(Clone, Copy)]
pub struct Write {
    pub key: u32,
    pub value: [u8; 2],
}

/// The value of two bytes.
fn value_of(bytes: [u8; 2]) -> Value
    ensures { result.len ≡ 2 }
{
    let mut all = [0; 64];
    all[0] = bytes[0];
    all[1] = bytes[1];
    Value { len: 2, bytes: all }
}

/// A transaction of this number as a block that starts there: it puts one key, and commits.
pub fn block_of(alloc: Global, first: u64, txn: u64, write: &Write) -> Result<Block, NoMemory>
    ensures { IfOk result (λ block. (v : Value) × (v.len ≡ 2) × (block.records ≡ Put txn write.now.key v ∷ Commit txn ((16 + write.now.key % 16) ∷ []) ∷ [])) }
{
    let mut records = ListOf::new(alloc);
    records.push(Record::Put {
        txn,
        key: write.key,
        value: value_of(write.value),
    })?;
    let mut pages = ListOf::new(alloc);
    pages.push(16 + (write.key % 16) as u16)?;
    records.push(Record::Commit { txn, pages })?;
    Ok(Block {
        first,
        term: 1,
        records,
    })
}

/// The same as transaction 1 after the opening record, at key 5, with a Trim of its page up to the Commit.
pub fn trimming_block(alloc: Global) -> Result<Block, NoMemory>
    ensures { IfOk result (λ block. (v : Value) × (v.len ≡ 2) × (block.records ≡ Put 1 5 v ∷ Commit 1 (21 ∷ []) ∷ Trim 21 3 ∷ [])) }
{
    let write = Write {
        key: 5,
        value: *b"aa",
    };
    let mut block = block_of(alloc, 2, 1, &write)?;
    block.records.push(Record::Trim {
        page: 21,
        horizon: 3,
    })?;
    Ok(block)
}
