//! That the events give and take pages case by case as these calls do.
ghost use Rattle.std.specs.Prelude.{◌≡◌, ℕ, Bool, not};
ghost use Rattle.ag_rules.specs.Replica.{Replica, is_bad, is_wanted, applied_of};
ghost use Rattle.ag_rules.specs.Plan.{Here};
ghost use Rattle.ag_rules.specs.PageAskMessage.{page_ask_part};
ghost use Rattle.ag_rules.specs.PageGiveMessage.{page_give_part};
ghost use Rattle.ag_repair.specs.Pages.{giving_of, arrival_of};
ghost use Rattle.ag_repair.specs.Parts.{part_of_giving, part_of_arrival};

/// What is given and taken in an event is what these calls answer; `full` says that the link to the asker is full.
pub fn events_agree()
    ensures give { (h : Here) (n : ℕ) (r : Replica) (full : Bool) (p lsn : ℕ) (primary : Bool) →
        page_ask_part h n r full r.term p lsn primary ≡ part_of_giving (giving_of (is_bad r p) r.state (not r.leads) primary (applied_of r p) lsn) h n r full p }
    ensures arrive { (r : Replica) (p lsn : ℕ) → page_give_part r r.term p lsn ≡ part_of_arrival (arrival_of (is_wanted r p) r.state (applied_of r p) lsn) r p lsn }
{}
