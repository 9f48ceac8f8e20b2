//! What a replica does once a primary has found the fork.
ghost use Rattle.std.specs.Prelude.{◌≡◌, ◌<◌, ◌+◌, ◌^◌, ◌↔◌, ◌||◌, ◌==◌, ℕ, min, List, length, take, drop, get_or, bit_or, IsTrue, true, false};
ghost use Rattle.ag_model.specs.PageSets.{pages_where, has_bit};
ghost use Rattle.ag_rules.specs.ResumeMessage.{still_initialises};
ghost use Rattle.ag_revert.specs.Planned.{planned, union, foreign_then, reverting};
ghost use Rattle.ag_revert.specs.declared.plans.Plan.TheVariants.{Follow, Revert, Continue};

use crate::plans::Plan;
use ag_master::Master;
use ag_model::page_set::PageSet;

/// What a replica with this master, whose log ends at the LSN `log_end`, does to follow the primary of a term, whose log is
/// hardened up to the LSN `end` and parts from its own at the LSN `fork`. Its own records after the fork touch the pages
/// `touched`.
///
/// The foreign pages are those so far and the touched ones. Where there is one, it reverts: up to `end` the pages may be
/// ahead of its log. Where records are cut, their blocks count no more, since the incarnation is a new one. The rule is this
/// project's own.
pub fn plan(m: &Master, log_end: u64, term: u64, fork: u64, end: u64, touched: &PageSet) -> Plan
    requires { fork < log_end → m.now.incarnation < 2 ^ 63 }
    ensures result { result ≡ planned m.now log_end term fork end touched.now }
    ensures continues { result ≡ Continue ↔ IsTrue (still_initialises m.now.state m.now.term log_end term fork) }
    ensures follows { result ≡ Follow ↔ (still_initialises m.now.state m.now.term log_end term fork ≡ false) × (length (foreign_then m.now touched.now) ≡ 0) }
    ensures reverts { (new : Master) → result ≡ Revert new
        ↔ (still_initialises m.now.state m.now.term log_end term fork ≡ false) × (0 < length (foreign_then m.now touched.now))
        × (new ≡ reverting m.now log_end term fork end (foreign_then m.now touched.now)) }
{
    if still_initialises(m, log_end, term, fork) {
        return Plan::Continue;
    }
    let foreign = union(&m.foreign, touched);
    if foreign.is_empty() {
        Plan::Follow
    } else {
        Plan::Revert(reverting(m, log_end, term, fork, end, foreign))
    }
}

/// Whether it is initialising in this very term, with the fork at its end.
fn still_initialises(m: &Master, log_end: u64, term: u64, fork: u64) -> bool
    ensures { result ≡ still_initialises m.now.state m.now.term log_end term fork }
{
    m.state == 4 && m.term == term && fork == log_end
}

/// The master of a replica that reverts.
fn reverting(m: &Master, log_end: u64, term: u64, fork: u64, end: u64, foreign: PageSet) -> Master
    requires { fork < log_end → m.now.incarnation < 2 ^ 63 }
    ensures { result ≡ reverting m.now log_end term fork end foreign }
{
    let incarnation = if fork < log_end {
        m.incarnation + 1
    } else {
        m.incarnation
    };
    Master {
        state: 3,
        incarnation,
        term,
        cut: fork,
        undo: end,
        redo: m.redo.min(fork),
        foreign,
        ..*m
    }
}

/// The pages of both sets.
fn union(one: &PageSet, other: &PageSet) -> PageSet
    ensures { result ≡ union one.now other.now }
{
    PageSet::from_bytes(&any_bits(&one.to_bytes(), &other.to_bytes()))
}

/// The bits that are set in either.
fn any_bits(one: &[u8; 256], other: &[u8; 256]) -> [u8; 256]
    ensures { (i : ℕ) → i < 256 → get_or result i 0 ≡ bit_or (get_or one.now i 0) (get_or other.now i 0) }
{
    let mut bits = *one;
    for i in 0..256 {
        bits[i] |= other[i];
    }
    bits
}
