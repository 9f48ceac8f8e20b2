//! A session's token against a replica.
ghost use Rattle.std.specs.Prelude.{◌≡◌, ◌<◌, ◌↔◌, IfOk};
ghost use Rattle.ag_rules.specs.Checks.{session_checks, token_or_none};
ghost use Rattle.ag_rules.specs.Plan.{Part, unless};
ghost use Rattle.ag_rules.specs.Replica.{Replica};
ghost use Rattle.ag_session.specs.Checked.{checked, after_check};

use ag_model::config::Token;

/// Why a replica may not answer a session.
#[derive(Clone, Copy, Debug, PartialEq, Eq)]
pub enum SessionFault {
    /// In the session's term the replica would answer at an LSN below the one that the session has seen.
    Behind { front: u64, seen: u64 },
    /// The term of the replica is below that of the session.
    OldTerm { node: u64, session: u64 },
}

/// The token of a session once a replica of this term has answered it at this LSN, where the replica may.
///
/// The LSN is the front for a read or a snapshot, and the snapshot for a view. A session that was never answered has no
/// token. In a higher term a session may be answered at a lower LSN. The rule is this project's own.
pub fn check(t: Option<Token>, term: u64, lsn: u64) -> Result<Token, SessionFault>
    ensures exact { result ≡ checked t term lsn }
    ensures ok { IfOk result (λ token. token ≡ record { term = term; lsn = lsn }) }
    ensures old_term { (result ≡ Err (SessionFault.OldTerm term (token_or_none t).term)) ↔ (term < (token_or_none t).term) }
    ensures behind { (result ≡ Err (SessionFault.Behind lsn (token_or_none t).lsn)) ↔ ((term ≡ (token_or_none t).term) × (lsn < (token_or_none t).lsn)) }

    // An event of this replica goes on exactly where the check passes, and is else refused so.
    ensures rules { (r : Replica) (part : Part) → r.term ≡ term → unless (session_checks r (token_or_none t) lsn) r part ≡ after_check result r part }
{
    if let Some(seen) = t {
        if term < seen.term {
            return Err(SessionFault::OldTerm {
                node: term,
                session: seen.term,
            });
        }
        if term == seen.term && lsn < seen.lsn {
            return Err(SessionFault::Behind {
                front: lsn,
                seen: seen.lsn,
            });
        }
    }
    Ok(Token { term, lsn })
}
