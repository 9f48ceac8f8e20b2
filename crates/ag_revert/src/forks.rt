//! Where two logs part, told from their term starts.
ghost use Rattle.std.specs.Prelude.{◌≡◌, ◌≤◌, min, List, length};
ghost use Rattle.std.specs.List.{common_prefix_len};
ghost use Rattle.ag_model.specs.declared.record.Record.{Record};
ghost use Rattle.ag_model.specs.Starts.{term_starts, is_same_start, end_before, fork_of_starts};
ghost use Rattle.ag_model.specs.Starts.{fork as fork_of_logs};
ghost use Rattle.ag_revert.specs.Shared.{ShareTerms};

use ag_model::config::TermStart;

/// The LSN up to which two logs are the same, told from their term starts and their ends, which are LSNs.
///
/// After the last term that starts in both at the same LSN, each log goes on up to where its next term starts, or to its
/// end; the fork is the smaller of both. It is the length of the longest common prefix of two logs that share their terms:
/// each term that both start at the same LSN has the same records in both, as far as both have it. The rule is this
/// project's own.
pub fn fork(own: &[TermStart], own_end: u64, other: &[TermStart], other_end: u64) -> u64
    ensures starts { result ≡ fork_of_starts own.now own_end other.now other_end }
    ensures logs { (a b : List Record) → own.now ≡ term_starts a → own_end ≡ length a → other.now ≡ term_starts b → other_end ≡ length b → ShareTerms a b → result ≡ fork_of_logs a b }
{
    let common = common_starts(own, other);
    first_end(&own[common..], own_end).min(first_end(&other[common..], other_end))
}

/// How many starts, from the first on, are the same.
fn common_starts(own: &[TermStart], other: &[TermStart]) -> usize
    ensures value { result ≡ common_prefix_len is_same_start own.now other.now }
    ensures within { result ≤ min (length own.now) (length other.now) }
{
    let shorter = own.len().min(other.len());
    for i in 0..shorter {
        if !is_same(&own[i], &other[i]) {
            return i;
        }
    }
    shorter
}

/// Whether two starts are of the same term at the same LSN.
fn is_same(start: &TermStart, other: &TermStart) -> bool
    ensures { result ≡ is_same_start start.now other.now }
{
    start.term == other.term && start.lsn == other.lsn
}

/// Where a log ends the term before these starts.
fn first_end(starts: &[TermStart], end: u64) -> u64
    ensures { result ≡ end_before starts.now end }
{
    match starts.first() {
        Some(start) => start.lsn.saturating_sub(1),
        None => end,
    }
}
