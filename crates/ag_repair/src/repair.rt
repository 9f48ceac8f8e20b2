//! The repair of a page, and the foreign pages of a replica that reverts.
ghost use Rattle.std.specs.Prelude.{◌≡◌, ◌≢◌, ◌↔◌, ◌<◌, ◌≤◌, ◌⊎◌, true, false, IsTrue};
ghost use Rattle.ag_rules.specs.Replica.{is_reverting, wanted_of};
ghost use Rattle.ag_repair.specs.Pages.{giving_of, arrival_of};

/// What a replica does that is asked for a page.
#[derive(Clone, Copy, Debug, PartialEq, Eq)]
pub enum Giving {
    /// It gives the page.
    Give,
    /// It says that it can't.
    Refuse,
    /// It says nothing.
    Nothing,
    /// The question waits: the page stands at an LSN below the one that is asked for.
    Wait { stands: u64, asked: u64 },
}

/// What a replica does with a page that comes.
#[derive(Clone, Copy, Debug, PartialEq, Eq)]
pub enum Arrival {
    /// It writes the page.
    Install,
    /// It keeps the page until the page's stripe stands far enough.
    Hold,
    /// It has no use for the page.
    NotWanted,
}

/// Whether a page may be asked for: it waits for a repair, or, in state 3, it is foreign and hasn't come yet.
pub fn wanted(pending: bool, foreign: bool, came: bool, state: u8) -> bool
    ensures exact { result ≡ wanted_of pending foreign came state }
    ensures repair { pending ≡ true → IsTrue result }
    ensures reverting { state ≢ 3 → result ≡ pending }
{
    pending || (state == 3 && foreign && !came)
}

/// What a replica does that is asked for a page.
///
/// The page stands at the LSN up to which its stripe has redone. A primary gives any page that isn't bad. A secondary gives
/// a page to a primary alone, and only at the asked LSN or above. In states 3 and 4 a replica gives none. The rule is this
/// project's own.
pub fn may_give(
    bad: bool,
    state: u8,
    secondary: bool,
    asker_primary: bool,
    stands: u64,
    asked: u64,
) -> Giving
    ensures exact { result ≡ giving_of bad state secondary asker_primary stands asked }
    ensures nothing { (result ≡ Giving.Nothing) ↔ ((secondary ≡ true) × (asker_primary ≡ false)) }
    ensures give_sound { result ≡ Giving.Give → (bad ≡ false) × (is_reverting state ≡ false) }
    ensures give_far_enough { result ≡ Giving.Give → secondary ≡ true → asked ≤ stands }
{
    if secondary && !asker_primary {
        Giving::Nothing
    } else if bad || state == 3 || state == 4 {
        Giving::Refuse
    } else if secondary && stands < asked {
        Giving::Wait { stands, asked }
    } else {
        Giving::Give
    }
}

/// What a replica does with a page that comes with an LSN, where the page's stripe has redone up to its own LSN.
///
/// A foreign page in state 3 is written as it comes. A page from ahead of its stripe is held.
pub fn arrives(wanted: bool, state: u8, applied: u64, at: u64) -> Arrival
    ensures exact { result ≡ arrival_of wanted state applied at }
    ensures not_wanted { (result ≡ Arrival.NotWanted) ↔ (wanted ≡ false) }
    ensures hold { (result ≡ Arrival.Hold) ↔ ((wanted ≡ true) × (state ≢ 3) × (applied < at)) }
{
    if !wanted {
        Arrival::NotWanted
    } else if state == 3 || at <= applied {
        Arrival::Install
    } else {
        Arrival::Hold
    }
}
