//! The parts of a group at the opening.
ghost use Rattle.std.specs.Prelude.{◌≡◌, ◌+◌, ◌<◌, ◌≤◌, ◌++◌, ◌∷◌, ◌==◌, ℕ, [], None, length, vec_len, vec_capacity, drop, map, get_or, replicate, IfOk, IfErr, OnOk, OnErr};
ghost use Rattle.std.specs.List.{AllByRecursion};
ghost use Rattle.std.specs.VecDeque.{deque_len, deque_capacity};
ghost use Rattle.ag_outside.specs.Counts.{HasRisen};
ghost use Rattle.ag_rules.specs.Group.{opening_replica, opening_replicas, synced_at_opening};
ghost use Rattle.ag_rules.specs.Script.{IsConfig};
ghost use Rattle.ag_group.specs.Blank.{IsBlankDisk};
ghost use Rattle.ag_group.specs.Faults.{IsCounted, IsLawful};
ghost use Rattle.ag_group.specs.Seen.{faults_of, replicas_of};

use crate::fault::StepFault;
use crate::links::Links;
use ag_model::config::{Config, Register, Token};
use ag_model::value::NoMemory;
use ag_node::node::Node;
use ag_node::opening::synced_at_opening;
use ag_outside::disk::Disk;
use std::alloc::{AllocError, Global};
use std::collections::VecDeque;

/// The sessions of a group.
const SESSIONS: usize = 64;

/// What a group has beside its nodes.
#[derive(Drop)]
pub(crate) struct Parts {
    pub config: Config,
    pub links: Vec<Links>,
    pub register: Register,
    pub tokens: Vec<Option<Token>>,
}

/// What a group has beside its nodes at the opening.
pub(crate) fn opening_parts(alloc: Global, config: &Config) -> Result<Parts, NoMemory>
    ensures config { IfOk result (λ parts. parts.config ≡ config.now) }
    ensures links { IfOk result (λ parts. parts.links.items ≡ replicate (length config.now.modes) (replicate (length config.now.modes) [])) }
    ensures register { IfOk result (λ parts. parts.register ≡ record { term = 1; primary = 0; synced = synced_at_opening config.now.modes; suspended = 0 }) }
    ensures tokens { IfOk result (λ parts. parts.tokens.items ≡ replicate 64 None) }
{
    let modes = config.modes.as_slice();
    let register = Register {
        term: 1,
        primary: 0,
        synced: synced_at_opening(modes)?,
        suspended: 0,
    };
    Ok(Parts {
        config: copy_of(config)?,
        links: opening_links(alloc, modes.len())?,
        register,
        tokens: no_tokens(alloc)?,
    })
}

/// The same config again.
fn copy_of(config: &Config) -> Result<Config, AllocError>
    ensures { IfOk result (λ copy. copy ≡ config.now) }
{
    config.clone()
}

/// Opens the next node over the first of these disks. Where it can't, that disk is the first again.
fn open_next<D: Disk>(
    alloc: Global,
    config: &Config,
    nodes: &mut Vec<Node<D>>,
    disks: &mut VecDeque<D>,
) -> Result<(), StepFault>
    requires config { IsConfig config.now }
    requires room { vec_len nodes.old < vec_capacity nodes.old }
    requires few { vec_len nodes.old < 256 }
    requires some { 0 < deque_len disks.old }
    requires fit { AllByRecursion (λ d. IsBlankDisk (D.size d) (D.keeps d) (D.reads d)) disks.old.items }
    ensures node { OnOk result (replicas_of nodes.new.items ≡ replicas_of nodes.old.items ++ opening_replica config.now (length nodes.old.items == 0) ∷ []) }
    ensures disks { OnOk result (disks.new.items ≡ drop 1 disks.old.items) }
    ensures same { OnErr result (nodes.new.items ≡ nodes.old.items) }
    ensures back { OnErr result (length disks.new.items ≡ length disks.old.items) }
    ensures fault { IfErr result (λ e. (n : ℕ) → e ≡ StepFault.DiskFault n → (n ≡ length nodes.old.items)
        × HasRisen (get_or (map D.faults disks.old.items) 0 0) (get_or (map D.faults disks.new.items) 0 0)) }
    ensures lawful { IfErr result IsLawful }
    ensures nodes_capacity { vec_capacity nodes.old ≤ vec_capacity nodes.new }
    ensures disks_capacity { deque_capacity disks.new ≡ deque_capacity disks.old }
{
    let number = nodes.len() as u8;
    let Some(disk) = disks.pop_front() else {
        unreachable!();
    };
    match Node::opening(alloc, config, number, number == 0, disk) {
        Ok(node) => match nodes.push(node) {
            Ok(()) => Ok(()),
            Err(_) => unreachable!(),
        },
        Err((fault, disk)) => match disks.push_front(disk) {
            Ok(()) => Err(StepFault::of_node(number, fault)),
            Err(_) => unreachable!(),
        },
    }
}

/// Opens a node over each of these disks, of which the first leads. Where it can't, the disks that no node has are left.
fn open_each<D: Disk>(
    alloc: Global,
    config: &Config,
    nodes: &mut Vec<Node<D>>,
    disks: &mut VecDeque<D>,
) -> Result<(), StepFault>
    requires config { IsConfig config.now }
    requires none { nodes.old.items ≡ [] }
    requires each { length disks.old.items ≡ length config.now.modes }
    requires room { deque_len disks.old ≤ vec_capacity nodes.old }
    requires fit { AllByRecursion (λ d. IsBlankDisk (D.size d) (D.keeps d) (D.reads d)) disks.old.items }
    ensures nodes { OnOk result (replicas_of nodes.new.items ≡ opening_replicas config.now config.now.modes) }
    ensures all { OnOk result (deque_len disks.new ≡ 0) }
    ensures back { OnErr result (length nodes.new.items + length disks.new.items ≡ length disks.old.items) }
    ensures fault { IfErr result (λ e. (n : ℕ) → e ≡ StepFault.DiskFault n → (n ≡ length nodes.new.items)
        × HasRisen (get_or (map D.faults disks.old.items) n 0) (get_or (map D.faults disks.new.items) 0 0)) }
    ensures lawful { IfErr result IsLawful }
    ensures capacity { deque_capacity disks.new ≡ deque_capacity disks.old }
{
    'disks: while !disks.is_empty() {
        match open_next(alloc, config, nodes, disks) {
            Ok(()) => {}
            Err(fault) => return Err(fault),
        }
    }
    Ok(())
}

/// The nodes give their disks back, in front of the others.
fn give_back<D: Disk>(mut nodes: Vec<Node<D>>, disks: &mut VecDeque<D>)
    requires room { vec_len nodes + deque_len disks.old ≤ deque_capacity disks.old }
    ensures { map D.faults disks.new.items ≡ faults_of nodes.items ++ map D.faults disks.old.items }
{
    'nodes: while let Some(node) = nodes.pop() {
        match disks.push_front(node.into_disk()) {
            Ok(()) => {}
            Err(_) => unreachable!(),
        }
    }
    nodes.destroy_empty();
}

/// A node for each mode over the next of these disks, of which the first leads. Where one can't open, the disks come back in
/// their order.
pub(crate) fn opening_nodes<D: Disk>(
    alloc: Global,
    config: &Config,
    disks: Vec<D>,
) -> Result<Vec<Node<D>>, (StepFault, Vec<D>)>
    requires config { IsConfig config.now }
    requires each { length disks.items ≡ length config.now.modes }
    requires fit { AllByRecursion (λ d. IsBlankDisk (D.size d) (D.keeps d) (D.reads d)) disks.items }
    ensures nodes { IfOk result (λ nodes. replicas_of nodes.items ≡ opening_replicas config.now config.now.modes) }
    ensures back { IfErr result (λ x. length x.1.items ≡ length disks.items) }
    ensures fault { IfErr result (λ x. IsCounted x.0 (map D.faults disks.items) (map D.faults x.1.items)) }
    ensures lawful { IfErr result (λ x. IsLawful x.0) }
{
    let Ok(mut nodes) = Vec::with_capacity(alloc, disks.len()) else {
        return Err((StepFault::NoMemory, disks));
    };
    let mut left = VecDeque::from_vec(disks);
    match open_each(alloc, config, &mut nodes, &mut left) {
        Ok(()) => {
            left.destroy_empty();
            Ok(nodes)
        }
        Err(fault) => {
            give_back(nodes, &mut left);
            Err((fault, left.into_vec()))
        }
    }
}

/// From each node to each, a link with no message.
fn opening_links(alloc: Global, count: usize) -> Result<Vec<Links>, NoMemory>
    ensures { IfOk result (λ links. links.items ≡ replicate count (replicate count [])) }
{
    let mut links = Vec::new(alloc);
    for _ in 0..count {
        links.push(Links::new(alloc, count)?)?;
    }
    Ok(links)
}

/// No session has a token.
fn no_tokens(alloc: Global) -> Result<Vec<Option<Token>>, NoMemory>
    ensures { IfOk result (λ tokens. tokens.items ≡ replicate 64 None) }
{
    let mut tokens = Vec::new(alloc);
    for _ in 0..SESSIONS {
        tokens.push(None)?;
    }
    Ok(tokens)
}
