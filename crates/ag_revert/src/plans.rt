//! What a replica may do once a primary has found the fork.
use ag_master::Master;

/// What a replica does with its log and its pages.
#[derive(Clone, Copy, Debug)]
pub enum Plan {
    /// It follows the primary from the fork on: no page is foreign.
    Follow,
    /// It saves this master, and asks for each foreign page.
    Revert(Master),
    /// It stays initialising, as it was in this term.
    Continue,
}
