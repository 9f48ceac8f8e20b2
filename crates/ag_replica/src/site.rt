//! Where an act is done.
ghost use Rattle.std.specs.Prelude.{◌≡◌};

use ag_model::config::{ModeList, Register};
use std::marker::Model;

/// Where an act is done: the number of the replica, the number of data pages, the modes of all replicas, and what the store holds.
#[derive(Drop)]
pub struct Site<'a> {
    number: u8,
    pages: u16,
    modes: &'a ModeList,
    store: Register,
}

impl<'a> Model for Site<'a> {
    ghost use Rattle.ag_rules.specs.Plan.{Here};

    ghost Value = { Here };

    ghost view = { λ s. record { number = s.number; pages = s.pages; modes = s.modes.now; store = s.store } };
}

impl<'a> Site<'a> {
    /// The replica of this number among some with these modes, each with so many data pages, where the store holds this.
    pub fn new(number: u8, pages: u16, modes: &'a ModeList, store: Register) -> Site<'a>
        ensures { result ≡ record { number = number; pages = pages; modes = modes.now; store = store } }
    {
        Site {
            number,
            pages,
            modes,
            store,
        }
    }

    /// The number of the replica.
    pub fn number(&self) -> u8
        ensures { result ≡ self.now.number }
    {
        self.number
    }

    /// How many data pages there are.
    pub fn pages(&self) -> u16
        ensures { result ≡ self.now.pages }
    {
        self.pages
    }

    /// The modes of all replicas.
    pub fn modes(&self) -> &'a ModeList
        ensures { result.now ≡ self.now.modes }
    {
        self.modes
    }

    /// What the store holds.
    pub fn store(&self) -> Register
        ensures { result ≡ self.now.store }
    {
        self.store
    }
}
