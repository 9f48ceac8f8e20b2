//! The hardened log of each replica of each run is in whole blocks, and begins with the first term.
#![tactic(auto)]

ghost use Rattle.std.specs.Prelude.{List};
ghost use Rattle.std.specs.List.{AllByRecursion};
ghost use Rattle.ag_model.specs.declared.config.Config.{Config};
ghost use Rattle.ag_model.specs.declared.event.Event.{Event};
ghost use Rattle.ag_rules.specs.Run.{run};
ghost use Rattle.ag_rules.specs.Script.{IsConfig, IsScript};
ghost use Rattle.ag_rules.specs.TermLog.{groups};
ghost use Rattle.ag_law_blocks.specs.Blocked.{AreBlocked};

/// In each group of a run the hardened log of each replica, up or down, begins with the Term record of term 1; its
/// block ends strictly rise and its last record is one; and each Term record begins a block. So it is after a cut.
pub fn logs_are_blocked()
    ensures blocked { (c : Config) (es : List Event) → IsConfig c → IsScript c es → AllByRecursion AreBlocked (groups (run c es)) }
{}
