//! Nodes as a test begins with them, on disks in memory.
ghost use Rattle.std.specs.Prelude.{◌≡◌, ◌∷◌, [], IfOk, length, replicate, true};
ghost use Rattle.std.specs.List.{AllByRecursion};
ghost use Rattle.ag_model.specs.declared.config.Mode.TheVariants.{Sync};
ghost use Rattle.ag_built.specs.Built.{IsPair};
ghost use Rattle.ag_rules.specs.Group.{opening_replica};

use crate::held::Held;
use ag_model::answer::Answer;
use ag_model::config::{Config, Mode, Register};
use ag_model::event::{Pair, PairList, Suffix};
use ag_model::list::ListOf;
use ag_model::value::{NoMemory, Value};
use ag_node::fault::NodeFault;
use ag_node::node::Node;
use ag_node::site::Site;
use ag_outside::mem_disk::MemDisk;
use std::alloc::Global;

/// A primary alone, on a disk in memory that fails at the calls of these numbers.
fn opened(alloc: Global, failing: Vec<u64>) -> Result<Node<MemDisk>, NodeFault>
    ensures replica { IfOk result (λ node. node.replica ≡ opening_replica (record { pages = 16; modes = Sync ∷ []; workers = 1; readers = 1 }) true) }
    ensures pages { IfOk result (λ node. length node.replica.pages ≡ 16) }
{
    let mut modes = ListOf::new(alloc);
    modes.push(Mode::Sync)?;
    let config = Config {
        pages: 16,
        modes,
        workers: 1,
        readers: 1,
    };
    let disk = MemDisk::new(alloc, failing, false);
    match Node::opening(alloc, &config, 0, true, disk) {
        Ok(node) => Ok(node),
        Err((fault, _)) => Err(fault),
    }
}

/// Where its events happen.
pub fn site() -> Site
    ensures { result ≡ record { number = 0; pages = 16; store = record { term = 1; primary = 0; synced = 0; suspended = 0 } } }
{
    Site {
        number: 0,
        pages: 16,
        store: Register {
            term: 1,
            primary: 0,
            synced: 0,
            suspended: 0,
        },
    }
}

/// One pair, whose value has no bytes.
fn one_pair(alloc: Global) -> Result<PairList, NoMemory>
    ensures pairs { IfOk result (λ pairs. pairs ≡ record { key = 5; value = record { len = 0; bytes = replicate 64 0 } } ∷ []) }
    ensures values { IfOk result (λ pairs. AllByRecursion IsPair pairs) }
{
    let mut pairs = ListOf::new(alloc);
    pairs.push(Pair {
        key: 5,
        value: Value {
            len: 0,
            bytes: [0; 64],
        },
    })?;
    Ok(pairs)
}

/// Sets and hardens that pair in a node as it opens.
fn harden_pair(alloc: Global, node: &mut Node<MemDisk>) -> Result<Answer, NodeFault>
    requires replica { node.old.replica ≡ opening_replica (record { pages = 16; modes = Sync ∷ []; workers = 1; readers = 1 }) true }
    requires pages { length node.old.replica.pages ≡ 16 }
    ensures { length node.new.replica.pages ≡ 16 }
{
    let pairs = one_pair(alloc)?;
    let site = site();
    node.set(alloc, &site, &pairs)?;
    let answer = node.harden(alloc, &site, &Suffix::Whole)?;
    Ok(answer)
}

/// A node as it opens.
pub fn open(alloc: Global, failing: Vec<u64>) -> Result<Held, NodeFault> {
    let node = opened(alloc, failing)?;
    Ok(Held::new(node))
}

/// A node that opened, and what came of its first block.
pub fn hardened(
    alloc: Global,
    failing: Vec<u64>,
) -> Result<(Held, Result<Answer, NodeFault>), NodeFault> {
    let mut node = opened(alloc, failing)?;
    let answer = harden_pair(alloc, &mut node);
    Ok((Held::new(node), answer))
}
