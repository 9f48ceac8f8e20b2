//! Every log of every run is proper.
#![tactic(auto)]

ghost use Rattle.std.specs.Prelude.{ℕ, List};
ghost use Rattle.std.specs.List.{AllByRecursion};
ghost use Rattle.ag_model.specs.declared.config.Config.{Config};
ghost use Rattle.ag_model.specs.declared.event.Event.{Event};
ghost use Rattle.ag_rules.specs.Allowed.{next};
ghost use Rattle.ag_rules.specs.Group.{Group, opening};
ghost use Rattle.ag_rules.specs.Run.{run};
ghost use Rattle.ag_rules.specs.Script.{IsConfig, IsEvent, IsScript};
ghost use Rattle.ag_rules.specs.TermLog.{groups, term_log};
ghost use Rattle.ag_law_logs.specs.ProperRecords.{HardenedAreProper, BufferedAreProper, IsTermLog};
ghost use Rattle.ag_law_logs.specs.Reached.{IsReached};

/// In each group of a run the hardened log of each replica, up or down, is proper; so is the log of each primary with
/// its buffer, block ends aside; and each log of a term has no record, or the records of a proper log.
pub fn logs_are_proper()
    ensures hardened { (c : Config) (es : List Event) → IsConfig c → IsScript c es → AllByRecursion (HardenedAreProper c.pages) (groups (run c es)) }
    ensures buffered { (c : Config) (es : List Event) → IsConfig c → IsScript c es → AllByRecursion (BufferedAreProper c.pages) (groups (run c es)) }
    ensures terms { (c : Config) (es : List Event) → IsConfig c → IsScript c es → (t : ℕ) → IsTermLog c.pages (term_log (run c es) t) }
{}

/// The group at the opening is reached, and so is the one after each event of a group that is. The hardened log of each
/// replica of a reached group is proper. So whoever steps from group to group needs no script to know that.
pub fn reached_logs_are_proper()
    ensures opening { (c : Config) → IsReached c (opening c) }
    ensures next { (c : Config) (g : Group) (e : Event) → IsReached c g → IsEvent c e → IsReached c (next g e) }
    ensures proper { (c : Config) (g : Group) → IsConfig c → IsReached c g → HardenedAreProper c.pages g }
{}
