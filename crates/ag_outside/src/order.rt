//! What a scripted disk is told to do, and what it did.

/// An order. Writes, and writes and syncs together, count from 1 since it was given.
#[derive(Clone, Copy, Debug, PartialEq, Eq)]
pub enum Arm {
    /// Everything is done.
    Free,
    /// That write is stopped. Of the sectors that aren't synced by then, its own among them, in order of writing from 0,
    /// sector i is kept where bit `i % 64` of the mask is 1.
    Stop { write: u32, mask: u64 },
    /// That write or sync fails, and nothing that isn't synced is kept.
    Fail { call: u32 },
}

/// Which order was reached.
#[derive(Clone, Copy, Debug, PartialEq, Eq)]
pub enum Why {
    Nothing,
    /// The stop, which kept so many sectors.
    Stopped { write: u32, kept: u32 },
    /// The fail.
    Device,
    /// The disk below failed, maybe within a stop.
    Inner,
}
