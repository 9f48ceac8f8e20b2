//! The law of sessions.
ghost use Rattle.std.specs.Prelude.{◌≡◌, List, Option, Some, map};
ghost use Rattle.std.specs.List.{AllByRecursion};
ghost use Rattle.std.specs.Prelude.{ℕ, IfOk};
ghost use Rattle.ag_model.specs.declared.config.Token.{Token};
ghost use Rattle.ag_model.specs.declared.value.Value.{Value};
ghost use Rattle.ag_model.specs.declared.answer.Answer.TheVariants.{Row, Absent, Snap};
ghost use Rattle.ag_rules.specs.Checks.{token_or_none};
ghost use Rattle.ag_rules.specs.Next.{token_after};
ghost use Rattle.ag_rules.specs.SessionLaw.{Reaches, NeverFalls};
ghost use Rattle.ag_session.specs.Checked.{checked};
ghost use Rattle.ag_session.specs.Answered.{answered, seen_by};

/// What a session is answered never falls, whichever replicas it asks: the terms never fall, and in one term the LSNs
/// never fall.
pub fn session_law()
    ensures never_falls { (session : ℕ) (t : Option Token) (asked : List Token) → NeverFalls (map (seen_by session) (answered t asked)) }
    ensures above_token { (t : Option Token) (asked : List Token) → AllByRecursion (Reaches (token_or_none t)) (answered t asked) }

    // The token that a check gives is the one that the session has after the answer.
    ensures row_token { (t : Option Token) (term lsn : ℕ) (value : Value) → IfOk (checked t term lsn) (λ token. token_after term (Row lsn value) t ≡ Some token) }
    ensures absent_token { (t : Option Token) (term lsn : ℕ) → IfOk (checked t term lsn) (λ token. token_after term (Absent lsn) t ≡ Some token) }
    ensures snap_token { (t : Option Token) (term lsn : ℕ) → IfOk (checked t term lsn) (λ token. token_after term (Snap lsn) t ≡ Some token) }
{}
