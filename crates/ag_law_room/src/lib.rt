//! The versions of each page of each prefix of each log of each run have room on the page.
#![tactic(auto)]

ghost use Rattle.std.specs.Prelude.{List, ◌<◌, length};
ghost use Rattle.ag_model.specs.declared.config.Config.{Config};
ghost use Rattle.ag_model.specs.declared.event.Event.{Event};
ghost use Rattle.ag_rules.specs.Run.{run};
ghost use Rattle.ag_rules.specs.Script.{IsScript};
ghost use Rattle.ag_law_proper.specs.LogsHave.{LogsHave};
ghost use Rattle.ag_law_room.specs.Room.{HasRoom};

/// In each log of a run, after each number of its records, the versions of each page take at most 8,144 bytes.
pub fn pages_have_room()
    ensures room { (c : Config) (es : List Event) → 0 < length c.modes → IsScript c es → LogsHave (HasRoom c.pages) (run c es) }
{}
