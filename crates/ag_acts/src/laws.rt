//! What events at one replica do, as events of the group.
ghost use Rattle.std.specs.Prelude.{◌≡◌, ◌↔◌, ℕ, Option, Some, None, true};
ghost use Rattle.ag_model.specs.declared.event.Event.{Event};
ghost use Rattle.ag_model.specs.declared.event.Suffix.{Suffix};
ghost use Rattle.ag_rules.specs.Group.{Group, replica};
ghost use Rattle.ag_rules.specs.Plan.{Part, here};
ghost use Rattle.ag_rules.specs.Cut.{cut};
ghost use Rattle.ag_rules.specs.Next.{named, plan_of, suffix_of, done};
ghost use Rattle.ag_acts.specs.declared.told.Told.{Told};
ghost use Rattle.ag_acts.specs.Acts.{told_of, is_of_group};
ghost use Rattle.ag_acts.specs.Parts.{for_session, plan_of_act};
ghost use Rattle.ag_acts.specs.Cuts.{cut_short, told_part, told_after};

/// An event is told to one replica exactly where it isn't one of the whole group; the replica and the suffix are the event's, and
/// its first write finds the group as it was.
pub fn told_exactly()
    ensures none { (e : Event) → (told_of e ≡ None) ↔ (is_of_group e ≡ true) }
    ensures suffix { (e : Event) (t : Told) → told_of e ≡ Some t → suffix_of e ≡ t.suffix }
    ensures writer { (g : Group) (e : Event) (t : Told) → told_of e ≡ Some t → (plan_of g e).writer ≡ named g t.node }
    ensures before { (g : Group) (e : Event) (t : Told) → told_of e ≡ Some t → (plan_of g e).before ≡ g }
{}

/// What an event does that is told to one replica is what its act does there, as its suffix cuts it.
pub fn told_is_done()
    ensures plan { (g : Group) (e : Event) (t : Told) → told_of e ≡ Some t → plan_of g e ≡ plan_of_act g (named g t.node) t.act }
    ensures done { (g : Group) (e : Event) (t : Told) → told_of e ≡ Some t → done g e ≡ cut t.suffix (plan_of_act g (named g t.node) t.act) }
{}

/// An act may be cut short at its replica: that gives the answer of the event, and the group after it.
pub fn told_is_cut()
    ensures cut { (suffix : Suffix) (g : Group) (n : ℕ) (s : Option ℕ) (part : Part)
        → cut suffix (for_session g n s part) ≡ for_session g n s (cut_short suffix (here g n) (replica g n) part) }
    ensures answer { (g : Group) (e : Event) (t : Told) → told_of e ≡ Some t → (done g e).answer ≡ (told_part g t).answer }
    ensures after { (g : Group) (e : Event) (t : Told) → told_of e ≡ Some t → (done g e).after ≡ told_after g t }
{}
