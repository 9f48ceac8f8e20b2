//! How far a write comes whose order stops it, or has a call fail.
ghost use Rattle.std.specs.Prelude.{◌≡◌};
ghost use Rattle.ag_model.specs.Cells.{keeps, keeps_all};
ghost use Rattle.ag_kept.specs.Reaching.{how_far, order_of};

use ag_model::event::Suffix;
use ag_outside::order::Arm;

/// How far an event comes that makes one write.
#[derive(Clone, Copy, Debug, PartialEq, Eq)]
pub enum Reach {
    /// The place isn't reached.
    End,
    /// It is stopped in its write, of which all sectors are kept or not.
    Stop { whole: bool },
    /// A call fails.
    Fault,
}

/// Whether a mask keeps all of the first sectors.
fn keeps_all(mask: u64, sectors: u64) -> bool
    ensures { result ≡ keeps_all mask 0 sectors }
{
    (0..sectors).all(|sector| keeps(mask, sector))
}

/// Whether a mask keeps the sector of this number.
fn keeps(mask: u64, sector: u64) -> bool
    ensures { result ≡ keeps mask sector }
{
    (mask >> (sector % 64)) % 2 == 1
}

/// How far an event comes that makes one write of so many sectors, in so many calls of the disk.
pub fn how_far(suffix: &Suffix, sectors: u64, calls: u32) -> Reach
    ensures { result ≡ how_far suffix.now sectors calls }
{
    match suffix {
        Suffix::Whole => Reach::End,
        Suffix::Stop { write, mask } => {
            if *write <= 1 {
                Reach::Stop {
                    whole: keeps_all(*mask, sectors),
                }
            } else {
                Reach::End
            }
        }
        Suffix::Fail { call } => {
            if *call <= calls {
                Reach::Fault
            } else {
                Reach::End
            }
        }
    }
}

/// What a suffix orders of a disk. Writes and calls count from 1.
pub(crate) fn order_of(suffix: &Suffix) -> Arm
    ensures { result ≡ order_of suffix.now }
{
    match suffix {
        Suffix::Whole => Arm::Free,
        Suffix::Stop { write, mask } => Arm::Stop {
            write: (*write).max(1),
            mask: *mask,
        },
        Suffix::Fail { call } => Arm::Fail {
            call: (*call).max(1),
        },
    }
}
