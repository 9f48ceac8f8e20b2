//! Where an event happens.
use ag_model::config::Register;

/// Where an event happens: the number of the replica, the number of data pages, and what the store holds.
#[derive(Clone, Copy, Debug)]
pub struct Site {
    pub number: u8,
    pub pages: u16,
    pub store: Register,
}
