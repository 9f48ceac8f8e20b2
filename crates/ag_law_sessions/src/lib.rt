//! No session goes back: in every run, what a session was answered is never below what it was answered before.
#![tactic(auto)]

ghost use Rattle.std.specs.Prelude.{List, ◌<◌, length};
ghost use Rattle.ag_model.specs.declared.config.Config.{Config};
ghost use Rattle.ag_model.specs.declared.event.Event.{Event};
ghost use Rattle.ag_rules.specs.Run.{run};
ghost use Rattle.ag_rules.specs.Script.{IsScript};
ghost use Rattle.ag_rules.specs.SessionLaw.{SessionLaw};

/// What the sessions of a run were answered never falls.
pub fn sessions_never_fall()
    ensures sessions { (c : Config) (es : List Event) → 0 < length c.modes → IsScript c es → SessionLaw (run c es) }
{}
