//! Every log of every run is proper: the hardened log of each replica, up or down, the log of each primary with its
//! buffer, and each log of a term.
#![tactic(auto)]

ghost use Rattle.std.specs.Prelude.{List, ◌<◌, length};
ghost use Rattle.ag_model.specs.declared.config.Config.{Config};
ghost use Rattle.ag_model.specs.declared.event.Event.{Event};
ghost use Rattle.ag_model.specs.declared.record.Record.{Record};
ghost use Rattle.ag_model.specs.Proper.{RisesFrom, terms};
ghost use Rattle.ag_rules.specs.Run.{run};
ghost use Rattle.ag_rules.specs.Script.{IsScript};
ghost use Rattle.ag_law_proper.specs.LogsHave.{LogsHave};
ghost use Rattle.ag_law_proper.specs.Records.{RecordsAreProper};

/// The terms of the Term records of each log strictly rise.
pub fn terms_rise()
    ensures rise { (c : Config) (es : List Event) → 0 < length c.modes → IsScript c es → LogsHave (λ (log : List Record). RisesFrom 0 (terms log)) (run c es) }
{}

/// Each record of each log is one of a proper log: each transaction ends at most once, has nothing after its end,
/// and the end lists exactly the pages that it touched; a Trim's horizon is below the Trim's own LSN.
pub fn records_are_proper()
    ensures proper { (c : Config) (es : List Event) → 0 < length c.modes → IsScript c es → LogsHave (RecordsAreProper c.pages) (run c es) }
{}
