//! What a primary knows at the opening.
ghost use Rattle.std.specs.Prelude.{◌≡◌, ◌++◌, [], map, replicate, if◌then◌else◌, IfOk, OnOk};
ghost use Rattle.ag_rules.specs.Replica.{no_peer};
ghost use Rattle.ag_rules.specs.Group.{is_waited_for, waited_for, synced_at_opening, opening_peers};
ghost use Rattle.ag_node.specs.Nodes.{at_opening};

use crate::peer::PeerState;
use ag_model::config::{Config, Mode};
use ag_model::value::NoMemory;
use std::alloc::{AllocError, Global};

/// What a node has in memory at the opening.
#[derive(Drop)]
pub(crate) struct OpeningMemory {
    pub(crate) synced: u16,
    pub(crate) peers: Vec<PeerState>,
    pub(crate) used: Vec<u32>,
}

/// What a replica that leads, or doesn't, has in memory at the opening.
pub(crate) fn memory_at_opening(
    alloc: Global,
    config: &Config,
    leads: bool,
) -> Result<OpeningMemory, NoMemory>
    ensures synced { IfOk result (λ memory. memory.synced ≡ (if leads then synced_at_opening config.now.modes else 0)) }
    ensures peers { IfOk result (λ memory. memory.peers.items ≡ (if leads then opening_peers config.now.modes else [])) }
    ensures used { IfOk result (λ memory. memory.used.items ≡ replicate config.now.pages 0) }
{
    let (synced, peers) = known_at_opening(alloc, config.modes.as_slice(), leads)?;
    Ok(OpeningMemory {
        synced,
        peers,
        used: unused(alloc, config.pages)?,
    })
}

/// A count for each page: no version takes a byte.
pub(crate) fn unused(alloc: Global, pages: u16) -> Result<Vec<u32>, AllocError>
    ensures { IfOk result (λ counts. counts.items ≡ replicate pages 0) }
{
    let mut counts = Vec::new(alloc);
    for _ in 0..pages {
        counts.push(0)?;
    }
    Ok(counts)
}

/// The synchronised set and what is known of each replica, where a replica leads, and else nothing.
fn known_at_opening(
    alloc: Global,
    modes: &[Mode],
    leads: bool,
) -> Result<(u16, Vec<PeerState>), NoMemory>
    ensures synced { IfOk result (λ known. known.0 ≡ (if leads then synced_at_opening modes.now else 0)) }
    ensures peers { IfOk result (λ known. known.1.items ≡ (if leads then opening_peers modes.now else [])) }
{
    if leads {
        let synced = synced_at_opening(modes)?;
        let peers = opening_peers(alloc, modes)?;
        Ok((synced, peers))
    } else {
        Ok((0, Vec::new(alloc)))
    }
}

/// Whether a replica of this mode is waited for.
fn is_waited_for(mode: &Mode) -> bool
    ensures { result ≡ is_waited_for mode.now }
{
    match mode {
        Mode::Auto | Mode::Sync => true,
        Mode::Async => false,
    }
}

/// The synchronised set: bit i is replica i, of which the first is the primary.
pub fn synced_at_opening(modes: &[Mode]) -> Result<u16, NoMemory>
    ensures { IfOk result (λ set. set ≡ synced_at_opening modes.now) }
{
    match modes {
        [] => Ok(0),
        [_, secondaries @ ..] => Ok(waited_for(secondaries)?),
    }
}

/// The replicas that are waited for; the first of these has the second bit.
fn waited_for(modes: &[Mode]) -> Result<u16, NoMemory>
    ensures { IfOk result (λ set. set ≡ waited_for 2 modes.now) }
{
    let mut set: u16 = 0;
    let mut bit: u16 = 2;
    for mode in modes {
        if is_waited_for(mode) {
            set = set.checked_add(bit).ok_or(NoMemory)?;
        }
        bit = bit.checked_add(bit).ok_or(NoMemory)?;
    }
    Ok(set)
}

/// What the primary knows of each replica: nothing of itself, and of each other one that it has the first record.
fn opening_peers(alloc: Global, modes: &[Mode]) -> Result<Vec<PeerState>, NoMemory>
    ensures { IfOk result (λ peers. peers.items ≡ opening_peers modes.now) }
{
    let mut peers = Vec::new(alloc);
    match modes {
        [] => Ok(peers),
        [_, secondaries @ ..] => {
            peers.push(PeerState {
                connected: false,
                next: 0,
                hardened: 0,
                low: 0,
            })?;
            push_secondaries(&mut peers, secondaries)?;
            Ok(peers)
        }
    }
}

/// What a primary knows of so many replicas at its start: nothing.
pub(crate) fn strangers(alloc: Global, count: usize) -> Result<Vec<PeerState>, NoMemory>
    ensures { IfOk result (λ peers. peers.items ≡ replicate count no_peer) }
{
    let mut peers = Vec::new(alloc);
    for _ in 0..count {
        peers.push(PeerState {
            connected: false,
            next: 0,
            hardened: 0,
            low: 0,
        })?;
    }
    Ok(peers)
}

/// Adds what the primary knows of its secondaries.
fn push_secondaries(peers: &mut Vec<PeerState>, modes: &[Mode]) -> Result<(), NoMemory>
    ensures { OnOk result (peers.new.items ≡ peers.old.items ++ map (λ m. at_opening) modes.now) }
{
    for _ in modes {
        peers.push(PeerState {
            connected: true,
            next: 2,
            hardened: 1,
            low: 1,
        })?;
    }
    Ok(())
}
