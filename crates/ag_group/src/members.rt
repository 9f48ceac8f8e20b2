//! What a group has: its nodes, the links between them, the store and the sessions.
ghost use Rattle.std.specs.Prelude.{◌≡◌, ◌≢◌, ◌<◌, ℕ, Err, IfOk, IfErr, OnOk, length, map, get_or, []};
ghost use Rattle.std.specs.List.{AllByRecursion};
ghost use Rattle.ag_outside.specs.Counts.{HasRisen};
ghost use Rattle.ag_rules.specs.Group.{opening};
ghost use Rattle.ag_rules.specs.Next.{named, plan_of};
ghost use Rattle.ag_rules.specs.Script.{IsConfig, IsEvent, IsWho};
ghost use Rattle.ag_built.specs.Built.{IsBuilt, HasValues};
ghost use Rattle.ag_rules.specs.Allowed.{IsAllowed, next};
ghost use Rattle.ag_group.specs.Refusals.{IsLeft};
ghost use Rattle.ag_group.specs.Faults.{IsCounted, IsLawful};
ghost use Rattle.ag_group.specs.ProperAfter.{LeavesProper};
ghost use Rattle.ag_group.specs.Quiet.{WritesNothing, FollowsOrLooks, Looks};
ghost use Rattle.ag_group.specs.Blank.{IsBlankDisk};

mod messages;
mod nodes;

use crate::fault::StepFault;
use crate::links::Links;
use crate::opening::{opening_nodes, opening_parts};
use ag_model::answer::Answer;
use ag_model::config::{Config, Register, Token};
use ag_model::event::{Event, Who};
use ag_node::node::Node;
use ag_node::site::Site;
use ag_outside::disk::Disk;
use std::alloc::Global;
use std::marker::Model;

/// What a group has, each node over a disk of its own. A contract sees it as the group of the rules, with how often each disk
/// has failed.
#[derive(Drop)]
pub(crate) struct Members<D: Disk> {
    config: Config,
    nodes: Vec<Node<D>>,
    links: Vec<Links>,
    register: Register,
    tokens: Vec<Option<Token>>,
}

impl<D: Disk> Model for Members<D> {
    ghost use Rattle.std.specs.Prelude.{length};
    ghost use Rattle.ag_group.specs.Groups.{IsGroup};
    ghost use Rattle.ag_group.specs.Seen.{GroupView, faults_of, group_of};

    ghost Value = { GroupView };

    ghost view = { λ g. record { group = group_of g.config g.nodes.items g.links.items g.register g.tokens.items; faults = faults_of g.nodes.items } };

    ghost invariant = { λ g. IsGroup g.config g.nodes.items g.links.items g.register (length g.tokens.items) };
}

impl<D: Disk> Members<D> {
    /// The group at the opening, each node over the next of these disks: A leads, and the others follow it. Where it can't
    /// open the disks come back in their order; where memory is refused it may be fewer.
    #[tactic(auto, unfolding(ag_rules::specs::Group::opening))]
    pub(crate) fn create(
        alloc: Global,
        config: &Config,
        disks: Vec<D>,
    ) -> Result<Members<D>, (StepFault, Vec<D>)>
        requires config { IsConfig config.now }
        requires each { length disks.items ≡ length config.now.modes }
        requires fit { AllByRecursion (λ d. IsBlankDisk (D.size d) (D.keeps d) (D.reads d)) disks.items }
        ensures opening { IfOk result (λ g. g.group ≡ opening config.now) }
        ensures faults { IfOk result (λ g. length g.faults ≡ length config.now.modes) }
        ensures back { IfErr result (λ x. x.0 ≢ StepFault.NoMemory → length x.1.items ≡ length disks.items) }
        ensures fault { IfErr result (λ x. (n : ℕ) → x.0 ≡ StepFault.DiskFault n → HasRisen (get_or (map D.faults disks.items) n 0) (get_or (map D.faults x.1.items) n 0)) }
        ensures lawful { IfErr result (λ x. (n : ℕ) → x.0 ≡ StepFault.Unlawful n → ⊥) }
    {
        let Ok(parts) = opening_parts(alloc, config) else {
            return Err((StepFault::NoMemory, disks));
        };
        match opening_nodes(alloc, config, disks) {
            Ok(nodes) => Ok(Members {
                config: parts.config,
                nodes,
                links: parts.links,
                register: parts.register,
                tokens: parts.tokens,
            }),
            Err(e) => Err(e),
        }
    }

    /// One event, which its suffix may stop in a write, or have a call of its disk fail.
    #[tactic(auto, unfolding(ag_rules::specs::Next::done))]
    pub(crate) fn step(&mut self, alloc: Global, event: &Event) -> Result<Answer, StepFault>
        requires built { IsBuilt event.now }
        requires event { IsEvent self.old.group.config event.now }
        requires values { HasValues event.now }
        requires proper { LeavesProper self.old.group event.now }
        ensures allowed { IfOk result (IsAllowed self.old.group event.now) }
        ensures next { OnOk result (self.new.group ≡ next self.old.group event.now) }
        // A refused event leaves the group, but for the named refusals.
        ensures refused { IfOk result (λ a. IsLeft event.now a → self.new.group ≡ self.old.group) }
        ensures config { OnOk result (self.new.group.config ≡ self.old.group.config) }
        ensures fault { (n : ℕ) → result ≡ Err (StepFault.DiskFault n) → HasRisen (get_or self.old.faults n 0) (get_or self.new.faults n 0) }
        ensures lawful { (n : ℕ) → result ≡ Err (StepFault.Unlawful n) → ⊥ }
    {
        match event {
            Event::Harden { node, suffix } => {
                let n = self.named(node);
                let answer = self.harden(alloc, n, suffix)?;
                Ok(answer)
            }
            Event::Deliver {
                node,
                to,
                number,
                suffix,
            } => {
                let (n, m) = (self.named(node), self.named(to));
                let answer = self.deliver(alloc, n, m, *number, false, suffix)?;
                Ok(answer)
            }
            Event::Repeat {
                node,
                to,
                number,
                suffix,
            } => {
                let (n, m) = (self.named(node), self.named(to));
                let answer = self.deliver(alloc, n, m, *number, true, suffix)?;
                Ok(answer)
            }
            Event::Flush { node, .. } => {
                let n = self.named(node);
                let answer = self.flush(n)?;
                Ok(answer)
            }
            Event::Start { node, suffix } => {
                let n = self.named(node);
                let answer = self.start(alloc, n, suffix)?;
                Ok(answer)
            }
            _ => {
                let answer = self.quiet_step(alloc, event)?;
                Ok(answer)
            }
        }
    }

    /// One event that writes nothing, so that no suffix cuts it.
    fn quiet_step(&mut self, alloc: Global, event: &Event) -> Result<Answer, StepFault>
        requires built { IsBuilt event.now }
        requires quiet { WritesNothing event.now }
        requires event { IsEvent self.old.group.config event.now }
        requires values { HasValues event.now }
        ensures answer { IfOk result (λ a. a ≡ (plan_of self.old.group event.now).answer) }
        ensures after { OnOk result (self.new.group ≡ (plan_of self.old.group event.now).after) }
        ensures writes { OnOk result ((plan_of self.old.group event.now).writes ≡ []) }
        ensures refused { IfOk result (λ a. IsLeft event.now a → self.new.group ≡ self.old.group) }
        ensures config { OnOk result (self.new.group.config ≡ self.old.group.config) }
        ensures fault { IfErr result (λ e. IsCounted e self.old.faults self.new.faults) }
        ensures lawful { IfErr result IsLawful }
    {
        match event {
            Event::Set { node, pairs, .. } => {
                let n = self.named(node);
                let answer = self.set(alloc, n, pairs)?;
                Ok(answer)
            }
            Event::Send { node, to, .. } => {
                let (n, m) = (self.named(node), self.named(to));
                let answer = self.send(alloc, n, m)?;
                Ok(answer)
            }
            Event::Lose {
                node,
                to,
                number,
                ..
            } => {
                let (n, m) = (self.named(node), self.named(to));
                let answer = self.lose(n, m, *number);
                Ok(answer)
            }
            Event::Crash { node, .. } => {
                let n = self.named(node);
                let answer = self.crash(alloc, n);
                Ok(answer)
            }
            _ => {
                let answer = self.follow_step(alloc, event)?;
                Ok(answer)
            }
        }
    }

    /// One event of a replica that redoes its log, or one that looks.
    fn follow_step(&mut self, alloc: Global, event: &Event) -> Result<Answer, StepFault>
        requires built { IsBuilt event.now }
        requires kind { FollowsOrLooks event.now }
        requires event { IsEvent self.old.group.config event.now }
        ensures answer { IfOk result (λ a. a ≡ (plan_of self.old.group event.now).answer) }
        ensures after { OnOk result (self.new.group ≡ (plan_of self.old.group event.now).after) }
        ensures writes { OnOk result ((plan_of self.old.group event.now).writes ≡ []) }
        ensures refused { IfOk result (λ a. IsLeft event.now a → self.new.group ≡ self.old.group) }
        ensures config { OnOk result (self.new.group.config ≡ self.old.group.config) }
        ensures fault { IfErr result (λ e. IsCounted e self.old.faults self.new.faults) }
        ensures lawful { IfErr result IsLawful }
    {
        match event {
            Event::Apply { node, stripe, .. } => {
                let n = self.named(node);
                let answer = self.apply(n, *stripe)?;
                Ok(answer)
            }
            Event::Raise { node, stripe, .. } => {
                let n = self.named(node);
                let answer = self.raise(n, *stripe);
                Ok(answer)
            }
            Event::Redo { node, .. } => {
                let n = self.named(node);
                let answer = self.redo(n)?;
                Ok(answer)
            }
            _ => {
                let answer = self.look_step(alloc, event)?;
                Ok(answer)
            }
        }
    }

    /// One event that reads, or looks at a node.
    fn look_step(&mut self, alloc: Global, event: &Event) -> Result<Answer, StepFault>
        requires built { IsBuilt event.now }
        requires kind { Looks event.now }
        requires event { IsEvent self.old.group.config event.now }
        ensures answer { IfOk result (λ a. a ≡ (plan_of self.old.group event.now).answer) }
        ensures after { OnOk result (self.new.group ≡ (plan_of self.old.group event.now).after) }
        ensures writes { OnOk result ((plan_of self.old.group event.now).writes ≡ []) }
        ensures refused { IfOk result (λ a. IsLeft event.now a → self.new.group ≡ self.old.group) }
        ensures config { OnOk result (self.new.group.config ≡ self.old.group.config) }
        ensures fault { IfErr result (λ e. IsCounted e self.old.faults self.new.faults) }
        ensures lawful { IfErr result IsLawful }
    {
        match event {
            Event::Read {
                node,
                session,
                key,
                ..
            } => {
                let n = self.named(node);
                let answer = self.read(n, *session, *key)?;
                Ok(answer)
            }
            Event::Page { node, page, .. } => {
                let n = self.named(node);
                let answer = self.page(n, *page)?;
                Ok(answer)
            }
            Event::Sectors { node, page, .. } => {
                let n = self.named(node);
                let answer = self.sectors(alloc, n, *page)?;
                Ok(answer)
            }
            Event::Status { node, .. } => {
                let n = self.named(node);
                let answer = self.status(n);
                Ok(answer)
            }
            _ => unreachable!(),
        }
    }

    /// Where an event of replica n happens.
    fn site(&self, n: u8) -> Site
        ensures number { result.number ≡ n }
        ensures pages { result.pages ≡ self.now.group.config.pages }
        ensures store { result.store ≡ self.now.group.register }
    {
        Site {
            number: n,
            pages: self.config.pages,
            store: self.register,
        }
    }

    /// The replica that a word names.
    fn named(&self, who: &Who) -> u8
        requires { IsWho self.now.group.config who.now }
        ensures is { result ≡ named self.now.group who.now }
        ensures within { result < length self.now.group.config.modes }
    {
        match who {
            Who::Letter(n) => *n,
            Who::Primary => self.register.primary,
        }
    }
}
