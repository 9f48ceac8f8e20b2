//! Why pages are neither read nor written.
ghost use Rattle.std.specs.Prelude.{◌≡◌};
ghost use Rattle.ag_pagestore.specs.Faults.{IsReadFaultOf, IsWriteFaultOf};

use ag_outside::disk::DiskError;

/// Why a page wasn't read.
#[derive(Clone, Copy, Debug, PartialEq, Eq)]
pub enum PageReadFault {
    /// A sector of the page is lost.
    Unreadable,
    /// No sector is lost, and the marks differ.
    Torn,
    /// The disk failed. Its count of faults has risen.
    DiskFault,
    NoMemory,
}

/// Why pages weren't written.
#[derive(Clone, Copy, Debug, PartialEq, Eq)]
pub enum PageWriteFault {
    /// The disk failed. Its count of faults has risen.
    DiskFault,
    NoMemory,
}

impl From<DiskError> for PageReadFault {
    ghost from_gives = { IsReadFaultOf };

    fn from(e: DiskError) -> PageReadFault {
        match e {
            DiskError::Failed => PageReadFault::DiskFault,
            DiskError::NoMemory => PageReadFault::NoMemory,
        }
    }
}

impl From<DiskError> for PageWriteFault {
    ghost from_gives = { IsWriteFaultOf };

    fn from(e: DiskError) -> PageWriteFault {
        match e {
            DiskError::Failed => PageWriteFault::DiskFault,
            DiskError::NoMemory => PageWriteFault::NoMemory,
        }
    }
}
