//! What a frame holds.
ghost use Rattle.std.specs.Prelude.{◌≡◌, Some, IsSome, option_map};
ghost use Rattle.std.specs.Borrow.{Lends, sem};
ghost use Rattle.ag_frame.specs.Frames.{shown, holds, with_page};

/// A frame: free, or with a page's number and the page.
#[derive(Drop)]
pub(crate) enum Frame<T> {
    Free,
    Held(u16, T),
}

impl<T> Frame<T> {
    ghost use Rattle.ag_frame.specs.contracts.frame.Frame.{the_row};

    /// Whether the frame holds the page.
    pub(crate) fn holds(&self, page: u16) -> bool
        ensures { result ≡ holds page (shown self.now) }
    {
        match self {
            Frame::Held(number, _) => *number == page,
            Frame::Free => false,
        }
    }

    /// The page to write to.
    pub(crate) fn page_mut(&mut self) -> &mut T
        requires { IsSome (shown self.old) }
        ensures* writes_back { sem 𝓛 (Lends (the_row T.row) T.row self.entry result (with_page self.old)) }
        ensures value { Some result.now ≡ option_map (λ h. h.1) (shown self.old) }
    {
        match self {
            Frame::Held(_, page) => page,
            Frame::Free => unreachable!(),
        }
    }

    /// What the frame held.
    pub(crate) fn content(self) -> Option<(u16, T)>
        ensures { result ≡ shown self }
    {
        match self {
            Frame::Held(number, page) => Some((number, page)),
            Frame::Free => None,
        }
    }

    /// The page that the frame held.
    pub(crate) fn page(self) -> Option<T>
        ensures { result ≡ option_map (λ h. h.1) (shown self) }
    {
        match self {
            Frame::Held(_, page) => Some(page),
            Frame::Free => None,
        }
    }
}
