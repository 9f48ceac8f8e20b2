//! What the rule of a front says, and that each kind of step keeps it.
ghost use Rattle.std.specs.Prelude.{◌≡◌, ℕ, ◌+◌, ◌-◌, ◌%◌, ◌^◌, ◌*◌, ◌<◌, ◌≤◌, List, [], ◌∷◌, max, slice_index, length};
ghost use Rattle.std.specs.List.{sum_by};
ghost use mathlib.Core.Option.{none, some};
ghost use lib.ListN.{get_elem?};
ghost use prog.Atomic.{either};
ghost use Rattle.std.specs.Prelude.{◌==◌};
ghost use Rattle.atomic_table.specs.Table.{State, Allows, Splits, Joins, step};
ghost use Rattle.ag_model.specs.declared.record.Log.{Log};
ghost use Rattle.ag_model.specs.Prefixes.{IsPrefix};
ghost use Rattle.ag_front.specs.declared.rule.Slot.{Slot};
ghost use Rattle.ag_front.specs.declared.rule.Slot.TheVariants.{Stripe, History};
ghost use Rattle.ag_front.specs.declared.view.View.{View};
ghost use Rattle.ag_front.specs.Rule.{FollowsRule, IsLaid, StandsAt};
ghost use Rattle.ag_front.specs.Slots.{MayGive, stripe_tried, stripe_given, log_tried, log_given};
ghost use Rattle.ag_front.specs.Steps.{Hold, loaded, raised, kept_part, given_part, merged, spent_view};

use ag_model::stands::Stands;

/// What holds of a front between any two steps, where its table follows the rule.
pub fn rule_says<T: Stands>()
    // The words, the stripes at home and the log are the published LSNs, the applied LSNs and the log of one replica.
    ensures replica { (count : ℕ) (s : State (Slot T) View) → FollowsRule T.standing count s → (log : Log) × (applied : ℕ → ℕ) × IsLaid T.standing count s.words s.homes log applied
        × ((j : ℕ) (v : View) → get_elem? s.views j ≡ some v → 0 < v.parts → IsPrefix v.seen log) }
    // A slot has one holder at most.
    ensures one_holder { (count : ℕ) (s : State (Slot T) View) → FollowsRule T.standing count s → (k i j : ℕ) (v w : View) → k < 17
        → get_elem? s.views i ≡ some v → get_elem? s.views j ≡ some w → 0 < v.parts → 0 < w.parts → v.hand ≡ k + 1 → w.hand ≡ k + 1 → i ≡ j }
    // All parts are there.
    ensures parts { (count : ℕ) (s : State (Slot T) View) → FollowsRule T.standing count s → sum_by (λ (v : View). v.parts) s.views ≡ 4096 }
{}

/// Each kind of step keeps the rule, and tells its pass what it says.
pub fn steps_keep_the_rule<T: Stands>()
    // Load a published word.
    ensures load { (count slots id : ℕ) (me : Hold T) (k : ℕ) → k < 16 → 0 < me.0.parts
        → Allows (FollowsRule T.standing count) slots id me k (λ n. n) (loaded (step slots k 0 0 none) me) }
    // Raise one to what the pass knows applied.
    ensures raise { (count slots id : ℕ) (me : Hold T) (k done : ℕ) → k < 16 → 0 < me.0.parts → done ≡ slice_index me.0.done k
        → Allows (FollowsRule T.standing count) slots id me k (λ n. max n done) (raised (step slots k done 0 none) me) }
    // Give the log back.
    ensures give_log { (count slots id : ℕ) (v : View) (log : Log) → 0 < v.parts → v.hand ≡ 17 → MayGive v log
        → Allows (FollowsRule T.standing count) slots id (v, (16, History log) ∷ []) 32 (λ n. (n + 1) % 2 ^ 64) (log_given (step slots 32 1 0 none) (v, (16, History log) ∷ [])) }
    // Give a stripe back.
    ensures give_stripe { (count slots id : ℕ) (v : View) (k : ℕ) (t : T) → k < 16 → 0 < v.parts → v.hand ≡ k + 1
        → v.at ≤ (T.standing t).applied → StandsAt T.standing v.pages v.seen k (T.standing t).applied t
        → Allows (FollowsRule T.standing count) slots id (v, (k, Stripe t) ∷ []) (16 + k) (λ n. (n + 1) % 2 ^ 64) (stripe_given T.standing (step slots (16 + k) 1 0 none) (v, (k, Stripe t) ∷ [])) }
    // Take the log.
    ensures take_log { (count slots id : ℕ) (me : Hold T) (old new : ℕ) → 0 < me.0.parts → me.0.hand ≡ 0 → old % 2 ≡ 0 → new ≡ old + 1 → new < 2 ^ 64 - 1
        → Allows (FollowsRule T.standing count) slots id me 32 (λ x. either (x == old) new x) (log_tried (step slots 32 old new none) me) }
    // Take a stripe.
    ensures take_stripe { (count slots id : ℕ) (me : Hold T) (k old new : ℕ) → k < 16 → 0 < me.0.parts → me.0.hand ≡ 0 → old % 2 ≡ 0 → new ≡ old + 1 → new < 2 ^ 64 - 1
        → Allows (FollowsRule T.standing count) slots id me (16 + k) (λ x. either (x == old) new x) (stripe_tried T.standing (step slots (16 + k) old new none) me) }
    // Make two passes of one.
    ensures split { (count id : ℕ) (v : View) (n : ℕ) → 0 < n → n < v.parts → v.hand ≡ 0 → Splits {S = Slot T} (FollowsRule T.standing count) id v (kept_part n v) (given_part n v) }
    // Make one pass of two.
    ensures join { (count id : ℕ) (v : View) (other : ℕ) (w : View) → 0 < v.parts → 0 < w.parts → v.hand ≡ 0 → w.hand ≡ 0
        → Joins {S = Slot T} (FollowsRule T.standing count) id v other w (merged v w) spent_view }
{}
