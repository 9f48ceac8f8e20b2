//! The passes of a front.
ghost use Rattle.std.specs.Prelude.{◌≡◌, ◌<◌, ◌≤◌, []};

use crate::rule::FrontSeat;

/// What a caller knows and may do at a front. Contracts see the view of its seat, which holds no slot.
#[derive(Drop)]
pub struct Pass<T> {
    pub seat: FrontSeat<T>,
    pub(crate) done: [u64; 16],
    pub(crate) turn: [u64; 17],
    pub(crate) pages: u16,
    pub ghost done_is: { done ≡ seat.me.0.done },
    pub ghost turn_is: { turn ≡ seat.me.0.turn },
    pub ghost pages_is: { pages ≡ seat.me.0.pages },
    pub ghost some_pages: { 16 ≤ pages },
    pub ghost free: { (seat.me.1 ≡ []) × (seat.me.0.hand ≡ 0) },
    pub ghost some_part: { 0 < seat.me.0.parts },
}
