//! The group, which says no more once it has given up.
ghost use Rattle.std.specs.Prelude.{◌≡◌, ◌≢◌, ℕ, Err, IfOk, IfErr, OnOk, length, map, get_or};
ghost use Rattle.std.specs.List.{AllByRecursion};
ghost use Rattle.ag_outside.specs.Counts.{HasRisen};
ghost use Rattle.ag_rules.specs.Group.{opening};
ghost use Rattle.ag_rules.specs.Script.{IsConfig, IsEvent};
ghost use Rattle.ag_built.specs.Built.{IsBuilt, HasValues};
ghost use Rattle.ag_rules.specs.Allowed.{IsAllowed, next};
ghost use Rattle.ag_group.specs.Refusals.{IsLeft};
ghost use Rattle.ag_group.specs.Blank.{IsBlankDisk};

use crate::fault::StepFault;
use crate::members::Members;
use ag_law_logs::reached_logs_are_proper;
use ag_model::answer::Answer;
use ag_model::config::Config;
use ag_model::event::Event;
use ag_outside::disk::Disk;
use std::alloc::Global;
use std::marker::Model;

/// The group, each node over a disk of its own. A contract sees it as the group of the rules, with how often each disk has
/// failed.
#[derive(Drop)]
pub struct Group<D: Disk> {
    members: Members<D>,
    /// Whether it gave up, so that a script need not lead to it any more.
    is_lost: bool,
}

impl<D: Disk> Model for Group<D> {
    ghost use Rattle.ag_group.specs.Lost.{IsReachedUnless};
    ghost use Rattle.ag_group.specs.Seen.{GroupView};

    ghost Value = { GroupView };

    ghost view = { λ g. g.members };

    ghost invariant = { λ g. IsReachedUnless g.is_lost g.members.group };
}

impl<D: Disk> Group<D> {
    /// The group at the opening, each node over the next of these disks: A leads, and the others follow it. Where it can't
    /// open the disks come back in their order; where memory is refused it may be fewer.
    pub fn create(
        alloc: Global,
        config: &Config,
        disks: Vec<D>,
    ) -> Result<Group<D>, (StepFault, Vec<D>)>
        requires config { IsConfig config.now }
        requires each { length disks.items ≡ length config.now.modes }
        requires fit { AllByRecursion (λ d. IsBlankDisk (D.size d) (D.keeps d) (D.reads d)) disks.items }
        ensures opening { IfOk result (λ g. g.group ≡ opening config.now) }
        ensures faults { IfOk result (λ g. length g.faults ≡ length config.now.modes) }
        ensures back { IfErr result (λ x. x.0 ≢ StepFault.NoMemory → length x.1.items ≡ length disks.items) }
        ensures fault { IfErr result (λ x. (n : ℕ) → x.0 ≡ StepFault.DiskFault n → HasRisen (get_or (map D.faults disks.items) n 0) (get_or (map D.faults x.1.items) n 0)) }
        ensures lawful { IfErr result (λ x. (n : ℕ) → x.0 ≡ StepFault.Unlawful n → ⊥) }
    {
        reached_logs_are_proper();
        match Members::create(alloc, config, disks) {
            Ok(members) => Ok(Group {
                members,
                is_lost: false,
            }),
            Err(failed) => Err(failed),
        }
    }

    /// One event, which its suffix may stop in a write, or have a call of its disk fail.
    pub fn step(&mut self, alloc: Global, event: &Event) -> Result<Answer, StepFault>
        requires built { IsBuilt event.now }
        requires event { IsEvent self.old.group.config event.now }
        requires values { HasValues event.now }
        ensures allowed { IfOk result (IsAllowed self.old.group event.now) }
        ensures next { OnOk result (self.new.group ≡ next self.old.group event.now) }
        // A refused event leaves the group, but for the named refusals.
        ensures refused { IfOk result (λ a. IsLeft event.now a → self.new.group ≡ self.old.group) }
        ensures config { OnOk result (self.new.group.config ≡ self.old.group.config) }
        ensures fault { (n : ℕ) → result ≡ Err (StepFault.DiskFault n) → HasRisen (get_or self.old.faults n 0) (get_or self.new.faults n 0) }
        ensures lawful { (n : ℕ) → result ≡ Err (StepFault.Unlawful n) → ⊥ }
    {
        if self.is_lost {
            return Err(StepFault::NoMemory);
        }
        reached_logs_are_proper();
        match self.members.step(alloc, event) {
            Ok(answer) => Ok(answer),
            Err(fault) => {
                self.is_lost = true;
                Err(fault)
            }
        }
    }
}
