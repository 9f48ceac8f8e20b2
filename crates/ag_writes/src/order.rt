//! What is still ordered of an event.
ghost use Rattle.std.specs.Prelude.{◌≡◌};
ghost use Rattle.ag_writes.specs.Performing.{order_of, nearer};

use ag_model::event::Suffix;

/// What is still ordered of an event.
#[derive(Clone, Copy, Debug, PartialEq, Eq)]
pub enum Order {
    Free,
    /// After so many more writes one is stopped, of which the mask tells what is kept.
    StopAt { writes: u32, mask: u64 },
    /// After so many more calls one fails.
    FailAt { calls: u32 },
}

impl Order {
    /// What is ordered once so many writes, each a call, and their sync went through.
    pub fn nearer(self, writes: u32) -> Order
        ensures { result ≡ nearer writes self }
    {
        match self {
            Order::Free => Order::Free,
            Order::StopAt { writes: left, mask } => Order::StopAt {
                writes: left.saturating_sub(writes),
                mask,
            },
            Order::FailAt { calls } => Order::FailAt {
                calls: calls.saturating_sub(writes).saturating_sub(1),
            },
        }
    }
}

/// What a suffix orders of an event that begins.
pub fn order_of(suffix: &Suffix) -> Order
    ensures { result ≡ order_of suffix.now }
{
    match suffix {
        Suffix::Whole => Order::Free,
        Suffix::Stop { write, mask } => Order::StopAt {
            writes: (*write).saturating_sub(1),
            mask: *mask,
        },
        Suffix::Fail { call } => Order::FailAt {
            calls: (*call).saturating_sub(1),
        },
    }
}
