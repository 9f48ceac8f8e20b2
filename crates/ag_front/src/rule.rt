//! The table behind a front, and the type of its rule.
use crate::history::History;
use crate::view::View;
use ag_model::record::Log;
use ag_model::stands::Stands;
use atomic_table::{Seat, Table, TableRule};
use std::alloc::Global;
use std::snapshot::Snapshot;

/// What a slot has. A seat that takes a value out leaves `Away`.
#[derive(Drop)]
pub enum Slot<T> {
    Stripe(T),
    History(History),
    Away,
}

/// What a front is told once: the number of data pages, and the opening for the first view.
#[derive(Drop)]
pub struct Opening {
    pub pages: u16,
    pub log: Snapshot<Log>,
    pub published: [u64; 16],
    pub applied: [u64; 16],
}

/// The rule of the front.
pub struct FrontRule;

impl<T: Stands> TableRule<Slot<T>, View, Opening> for FrontRule {
    ghost use Rattle.ag_front.specs.Rule.{FollowsRule, starting};

    ghost holds = { λ key. FollowsRule T.standing key.pages };

    ghost first = { λ key. starting key.pages key.log.value key.published key.applied };
}

pub type FrontTable<T> = Table<Slot<T>, View, Opening, FrontRule, Global>;

pub type FrontSeat<T> = Seat<Slot<T>, View>;
