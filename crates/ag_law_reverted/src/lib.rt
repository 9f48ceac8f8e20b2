//! Reverting restores: in every run, a replica that finishes reverting is as one restored from its primary's log.
#![tactic(auto)]

ghost use Rattle.std.specs.Prelude.{List, ◌<◌, length};
ghost use Rattle.ag_model.specs.declared.config.Config.{Config};
ghost use Rattle.ag_model.specs.declared.event.Event.{Event};
ghost use Rattle.ag_rules.specs.Run.{run};
ghost use Rattle.ag_rules.specs.Script.{IsScript};
ghost use Rattle.ag_rules.specs.RevertedLaw.{RevertedLaw};

/// A replica of a run that finishes reverting is as one restored from the log of its term.
pub fn reverted_as_restored()
    ensures reverted { (c : Config) (es : List Event) → 0 < length c.modes → IsScript c es → RevertedLaw c.pages (run c es) }
{}
