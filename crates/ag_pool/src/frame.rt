//! What memory has of one page, and of one stripe.
ghost use Rattle.std.specs.Prelude.{◌≡◌, min};
ghost use Rattle.ag_pool.specs.Frames.{empty_frame};

use ag_model::value::PageValue;

/// A page that was given at an LSN ahead of its stripe.
#[derive(Debug, Drop)]
pub struct Held {
    /// The LSN at which the page has this value.
    pub lsn: u64,
    pub value: PageValue,
}

/// What memory has of a page.
#[derive(Debug, Drop)]
pub struct Frame {
    /// The value of the page, where it was read in.
    pub value: Option<PageValue>,
    /// Whether the page was changed since its image was written.
    pub dirty: bool,
    /// Whether the page waits for a repair.
    pub pending: bool,
    /// The page that was given ahead of its stripe.
    pub held: Option<Held>,
    /// Whether the page came from another replica.
    pub came: bool,
}

/// How far a stripe has redone, and what it has published. Both are LSNs.
#[derive(Debug, Drop)]
pub struct StripeLsns {
    pub applied: u64,
    pub published: u64,
}

/// A frame with nothing in it.
pub(crate) fn empty_frame() -> Frame
    ensures { result ≡ empty_frame }
{
    Frame {
        value: None,
        dirty: false,
        pending: false,
        held: None,
        came: false,
    }
}

/// Lowers both LSNs of a stripe to at most an LSN.
pub(crate) fn lower_stripe(stripe: &mut StripeLsns, lsn: u64)
    ensures { stripe.new ≡ record { applied = min stripe.old.applied lsn; published = min stripe.old.published lsn } }
{
    stripe.applied = stripe.applied.min(lsn);
    stripe.published = stripe.published.min(lsn);
}
