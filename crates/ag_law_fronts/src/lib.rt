//! The law that a shared front is one replica between any two steps of any threads.
#![tactic(auto)]

ghost use Rattle.std.specs.Prelude.{ℕ};
ghost use Rattle.atomic_table.specs.Table.{State};
ghost use Rattle.ag_rules.specs.Replica.{Replica};
ghost use Rattle.ag_front.specs.declared.rule.Slot.{Slot};
ghost use Rattle.ag_front.specs.declared.view.View.{View};
ghost use Rattle.ag_front.specs.Rule.{FollowsRule};
ghost use Rattle.ag_law_fronts.specs.Shared.{IsReplica};

use ag_model::stands::Stands;

/// Where the table of a front follows its rule, there is a replica whose published LSNs, applied LSNs, pages and
/// log the words, the stripes at home and the log of the front are. LSNs count records.
pub fn fronts_are_replicas<T: Stands>()
    ensures replica { (count : ℕ) (s : State (Slot T) View) → FollowsRule T.standing count s → (r : Replica) × IsReplica T.standing count s r }
{}
