//! Reads are right: in every run, each row that a read or a view was answered is the row after a prefix of the log of its term.
#![tactic(auto)]

ghost use Rattle.std.specs.Prelude.{List, ◌<◌, length};
ghost use Rattle.ag_model.specs.declared.config.Config.{Config};
ghost use Rattle.ag_model.specs.declared.event.Event.{Event};
ghost use Rattle.ag_rules.specs.Run.{run};
ghost use Rattle.ag_rules.specs.Script.{IsScript};
ghost use Rattle.ag_rules.specs.ReadsRight.{ReadsRight};

/// Each answered read of a run is the row after a prefix of the log of its term.
pub fn reads_right()
    ensures reads { (c : Config) (es : List Event) → 0 < length c.modes → IsScript c es → ReadsRight (run c es) }
{}
