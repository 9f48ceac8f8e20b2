//! Where two logs part: the lists of their term starts and their ends tell it.
#![tactic(auto)]

ghost use Rattle.std.specs.Prelude.{◌≡◌, ◌≤◌, ℕ, List, length};
ghost use Rattle.ag_model.specs.declared.record.Record.{Record};
ghost use Rattle.ag_model.specs.Starts.{term_starts, fork_of_starts, fork};
ghost use Rattle.ag_rules.specs.Replica.{records, end};
ghost use Rattle.ag_rules.specs.Group.{Group, replica};
ghost use Rattle.ag_laws.specs.Logs.{Logs, Setting, IsTraced};
ghost use Rattle.ag_laws.specs.Good.{Good};

/// The starts never tell a fork that is too short; of two traced logs, as those of two replicas at any moment of a run, they
/// tell the very length of the longest common prefix.
pub fn forks_told_by_starts()
    ensures least { (a b : List Record) → fork a b ≤ fork_of_starts (term_starts a) (length a) (term_starts b) (length b) }
    ensures traced { (logs : Logs) (a b : List Record) → IsTraced logs a → IsTraced logs b → fork_of_starts (term_starts a) (length a) (term_starts b) (length b) ≡ fork a b }
    ensures group { (s : Setting) (logs : Logs) (g : Group) (n m : ℕ) → Good s logs g
        → fork_of_starts (term_starts (records (replica g n))) (end (replica g n)) (term_starts (records (replica g m))) (end (replica g m)) ≡ fork (records (replica g n)) (records (replica g m)) }
{}
