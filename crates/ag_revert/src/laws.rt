//! That a resume goes by the rules of the events.
ghost use Rattle.std.specs.Prelude.{◌≡◌, ◌≤◌, ◌||◌, ℕ, List};
ghost use Rattle.std.specs.List.{filter};
ghost use Rattle.ag_model.specs.Rows.{contains, page_numbers};
ghost use Rattle.ag_rules.specs.Replica.{Replica, records, end, is_foreign};
ghost use Rattle.ag_rules.specs.ResumeMessage.{foreign_from};
ghost use Rattle.ag_master.specs.declared.master.Master.{Master};
ghost use Rattle.ag_revert.specs.Touched.{touched_after};
ghost use Rattle.ag_revert.specs.Planned.{planned};
ghost use Rattle.ag_revert.specs.Resumed.{IsMasterOf, AreBelow, IsDone};

/// The foreign pages after a Resume are those so far and the touched ones. An accepted Resume does what is planned with the
/// replica's master.
pub fn events_agree()
    ensures foreign { (pages fork : ℕ) (r : Replica) → pages ≤ 2048
        → foreign_from pages r fork ≡ filter (λ p. is_foreign r p || contains p (touched_after pages (records r) fork)) (page_numbers pages) }
    ensures resume { (pages n term fork undo : ℕ) (r : Replica) (m : Master) → pages ≤ 2048 → IsMasterOf r m → AreBelow pages m.foreign → AreBelow pages (touched_after pages (records r) fork)
        → IsDone pages n r term fork undo (planned m (end r) term fork undo (touched_after pages (records r) fork)) }
{}
