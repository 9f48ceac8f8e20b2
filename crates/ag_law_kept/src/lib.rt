//! A safe failover keeps what was confirmed as synchronous, and what that rests on: no member of the store's set reverts, and
//! what a primary knows of a peer is so.
#![tactic(auto)]

ghost use Rattle.std.specs.Prelude.{List, ◌<◌, length};
ghost use Rattle.ag_model.specs.declared.config.Config.{Config};
ghost use Rattle.ag_model.specs.declared.event.Event.{Event};
ghost use Rattle.ag_rules.specs.Run.{run};
ghost use Rattle.ag_rules.specs.Script.{IsScript};
ghost use Rattle.ag_rules.specs.KeptLaw.{KeptLaw};
ghost use Rattle.ag_law_kept.specs.Laws.{MembersLaw, PeersLaw};
ghost use Rattle.ag_law_kept.specs.Local.{ConfirmedLaw};

/// No member of the store's set is in state 3 or 4, at any moment of a run.
pub fn no_member_reverts()
    ensures members { (c : Config) (es : List Event) → 0 < length c.modes → IsScript c es → MembersLaw (run c es) }
{}

/// At any moment of a run, what a primary knows of a replica's hardened log that replica has, while it is in the primary's
/// term; also where the primary is an old one.
pub fn peers_are_known()
    ensures peers { (c : Config) (es : List Event) → 0 < length c.modes → IsScript c es → PeersLaw (run c es) }
{}

/// In a run, where the log of a term has the term's own record, each Commit that its failover has to keep stands in it at its
/// own LSN, below that record, after the same records as where it was confirmed last.
pub fn failovers_keep_commits()
    ensures kept { (c : Config) (es : List Event) → 0 < length c.modes → IsScript c es → KeptLaw (run c es) }
{}

/// In a run, each Commit that was confirmed, as synchronous or by the primary alone, is a record of the log of its term, and
/// stands in the log of each later term that has begun and that safe failovers alone led to.
pub fn confirmed_commits_stay()
    ensures stays { (c : Config) (es : List Event) → 0 < length c.modes → IsScript c es → ConfirmedLaw (run c es) }
{}
