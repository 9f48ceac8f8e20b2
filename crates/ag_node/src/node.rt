//! One replica.
ghost use Rattle.std.specs.Prelude.{length, List, ◌≡◌, ◌≤◌, ◌∷◌, [], ℕ, replicate, Some, IsTrue, IfOk, IfErr, true, false, not, if◌then◌else◌, ◌==◌, ◌||◌};
ghost use Rattle.ag_model.specs.declared.record.Record.{Record};
ghost use Rattle.ag_model.specs.Sizes.{records_size};
ghost use Rattle.ag_rules.specs.Replica.{end, front, is_reverting};
ghost use Rattle.ag_rules.specs.Group.{opening_replica};
ghost use Rattle.ag_rules.specs.Promotion.{log_check};
ghost use Rattle.ag_rules.specs.Script.{IsConfig};
ghost use Rattle.ag_outside.specs.Counts.{HasRisen};
ghost use Rattle.ag_logstore.specs.Stored.{log_end};
ghost use Rattle.ag_node.specs.Nodes.{IsRefusedBy};

mod following;
mod leading;
mod pages;
mod starting;

use crate::fault::NodeFault;
use crate::home::Home;
use crate::opening::memory_at_opening;
use crate::peer::PeerState;
use crate::published::Published;
use crate::site::Site;
use ag_logstore::block_sectors_of;
use ag_model::answer::{Answer, Refusal};
use ag_model::config::Config;
use ag_model::list::ListOf;
use ag_model::record::RecordList;
use ag_model::value::NoMemory;
use ag_outside::disk::Disk;
use std::alloc::Global;
use std::marker::Model;

/// The term of the opening, in which every node is.
const TERM: u64 = 1;

/// One replica over its disk, which a contract sees as the replica of the rules. It is in the first term.
#[derive(Drop)]
pub struct Node<D: Disk> {
    home: Home<D>,
    /// What reads may see of each stripe, while the node is up.
    published: Published,
    buffer: RecordList,
    /// The bytes of the buffer's records.
    buffered: u64,
    last_txn: u64,
    synced: u16,
    peers: Vec<PeerState>,
    /// The bytes that versions take on each data page, the buffer's too; of a primary.
    used: Vec<u32>,
}

impl<D: Disk> Model for Node<D> {
    ghost use Rattle.ag_node.specs.Seen.{NodeView};
    ghost use Rattle.ag_node.specs.View.{node_of, stripes_in};
    ghost use Rattle.ag_node.specs.Nodes.{IsNode, leading_of};

    ghost Value = { NodeView };

    ghost view = { λ n. record { replica = node_of n.home (stripes_in n.home n.published) (leading_of n.buffer n.last_txn n.synced n.peers.items); faults = n.home.faults } };

    ghost invariant = { λ n. IsNode n.home n.published n.buffer n.buffered n.last_txn n.used.items };
}

impl<D: Disk> Node<D> {
    /// The term that it follows.
    pub fn term(&self) -> u64
        ensures { result ≡ self.now.replica.term }
    {
        let _ = &self.home;
        TERM
    }

    /// Whether it is up.
    pub fn is_up(&self) -> bool
        ensures { result ≡ self.now.replica.up }
    {
        self.home.is_up()
    }

    /// Whether it is primary.
    fn leads(&self) -> bool
        ensures is { result ≡ self.now.replica.leads }
        ensures term { self.now.replica.term ≡ 1 }
        ensures steady { is_reverting self.now.replica.state ≡ false }
    {
        self.home.leads()
    }

    /// Whether blocks of its primary are hardened here.
    fn follows(&self) -> bool
        ensures is { result ≡ (self.now.replica.state == 1) }
        ensures other { ((self.now.replica.state == 0) || (self.now.replica.state == 3)) ≡ not result }
        ensures up { result ≡ true → self.now.replica.up ≡ true }
    {
        self.home.follows()
    }

    /// Where its hardened log ends, an LSN.
    fn end(&self) -> u64
        requires up { self.now.replica.up ≡ true }
        ensures { result ≡ end self.now.replica }
    {
        self.home.end()
    }

    /// The front that reads see, an LSN.
    fn front(&self) -> u64
        requires up { self.now.replica.up ≡ true }
        ensures { result ≡ front self.now.replica }
    {
        self.published.front()
    }

    /// Why the log has no room for a block of these bytes, if it has none.
    fn log_refusal(&self, bytes: u64) -> Result<Option<Refusal>, NoMemory>
        requires up { self.now.replica.up ≡ true }
        ensures { IfOk result (λ why. (new : List Record) → records_size new ≡ bytes → IsRefusedBy why (log_check self.now.replica (new ∷ []))) }
    {
        let need = block_sectors_of(bytes);
        let free = self.home.free_sectors();
        if free < need {
            Ok(Some(Refusal::LogFull { need, free }))
        } else {
            Ok(None)
        }
    }

    /// A replica of this number at the opening, on a disk of zeros: the primary, or one that follows it. The disk comes back
    /// where that fails.
    pub fn opening(
        alloc: Global,
        config: &Config,
        number: u8,
        leads: bool,
        disk: D,
    ) -> Result<Node<D>, (NodeFault, D)>
        requires config { IsConfig config.now }
        requires room { log_end ≤ D.size disk }
        requires keeps { IsTrue (D.keeps disk) }
        requires zeros { (at : ℕ) → D.reads disk at ≡ Some (replicate 512 0) }
        ensures node { IfOk result (λ node. node.replica ≡ opening_replica config.now leads) }
        ensures pages { IfOk result (λ node. length node.replica.pages ≡ config.now.pages) }
        ensures fault { IfErr result (λ x. x.0 ≡ NodeFault.DiskFault → HasRisen (D.faults disk) (D.faults x.1)) }
    {
        let memory = match memory_at_opening(alloc, config, leads) {
            Ok(memory) => memory,
            Err(NoMemory) => return Err((NodeFault::NoMemory, disk)),
        };
        match Home::opening(alloc, disk, config.pages, number, leads) {
            Ok(home) => Ok(Node {
                home,
                published: Published::all_at(1),
                buffer: ListOf::new(alloc),
                buffered: 0,
                last_txn: 0,
                synced: memory.synced,
                peers: memory.peers,
                used: memory.used,
            }),
            Err(failed) => Err(failed),
        }
    }

    /// The disk below, as it is.
    pub fn into_disk(self) -> D
        ensures faults { D.faults result ≡ self.faults }
    {
        let Node { home, .. } = self;
        home.into_disk()
    }
}

/// The refusal of a replica that is down.
fn down(site: &Site) -> Answer
    ensures { result ≡ Answer.No (Refusal.Down site.now.number) }
{
    Answer::No(Refusal::Down { node: site.number })
}

/// The answer of an event whose one write is stopped. It counts where all of it was kept.
fn stopped(alloc: Global, whole: bool) -> Answer
    ensures { result ≡ Answer.Stopped 1 (if whole then 1 else 0) [] }
{
    Answer::Stopped {
        write: 1,
        step: u32::from(whole),
        torn: ListOf::new(alloc),
    }
}

/// The answer of an event one of whose calls of the disk failed.
fn device_failed(site: &Site) -> Answer
    ensures { result ≡ Answer.DeviceFailed site.now.number 0 }
{
    Answer::DeviceFailed {
        node: site.number,
        step: 0,
    }
}

/// The refusal of a replica that isn't primary.
fn not_primary(site: &Site) -> Answer
    ensures { result ≡ Answer.No (Refusal.NotPrimary site.now.number site.now.store.primary) }
{
    Answer::No(Refusal::NotPrimary {
        node: site.number,
        primary: site.store.primary,
    })
}
