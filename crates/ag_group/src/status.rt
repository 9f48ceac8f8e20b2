//! How a call ends.
ghost use Rattle.std.specs.Prelude.{◌≡◌, Some};
ghost use Rattle.ag_group.specs.Statuses.{number_of, key_text, bound_text, status_text};

use std::fmt;

/// What a head has wrong. The first that holds counts.
#[derive(Clone, Copy, Debug, PartialEq, Eq)]
pub enum ConfigKey {
    /// There is no line `---`, or the head isn't empty.
    Head,
    /// It can't be read.
    Toml,
    /// A key that isn't known.
    Unknown,
    /// The number of pages.
    Pages,
    /// The replicas.
    Replicas,
    /// The number of workers.
    Workers,
    /// The number of readers.
    Readers,
}

impl fmt::Display for ConfigKey {
    ghost output = { λ key. Some (key_text key) };

    fn fmt<W: fmt::Write>(&self, f: &mut fmt::Formatter<W>) -> fmt::Result {
        match self {
            ConfigKey::Head => write!(f, "head"),
            ConfigKey::Toml => write!(f, "toml"),
            ConfigKey::Unknown => write!(f, "unknown"),
            ConfigKey::Pages => write!(f, "pages"),
            ConfigKey::Replicas => write!(f, "replicas"),
            ConfigKey::Workers => write!(f, "workers"),
            ConfigKey::Readers => write!(f, "readers"),
        }
    }
}

/// What a text has too much of.
#[derive(Clone, Copy, Debug, PartialEq, Eq)]
pub enum Bound {
    /// Bytes.
    Text,
    /// Event lines.
    Events,
}

impl fmt::Display for Bound {
    ghost output = { λ what. Some (bound_text what) };

    fn fmt<W: fmt::Write>(&self, f: &mut fmt::Formatter<W>) -> fmt::Result {
        match self {
            Bound::Text => write!(f, "text"),
            Bound::Events => write!(f, "events"),
        }
    }
}

/// How a call ends. The numbers and the texts are this project's own.
#[derive(Clone, Copy, Debug, PartialEq, Eq)]
pub enum Status {
    /// All was read and written.
    Done,
    /// The words of the command aren't known.
    Usage,
    /// The head has a fault.
    BadConfig { key: ConfigKey },
    /// The first line that is neither skipped nor an event line. Lines count from 1 over the whole text.
    BadLine { line: u32 },
    /// The text has too much of something.
    TooMany { what: Bound },
    /// The source failed.
    ReadFault,
    /// The sink failed.
    WriteFault,
    /// Memory was refused.
    NoMemory,
}

impl Status {
    /// The number that a program ends with.
    pub fn number(&self) -> u8
        ensures { result ≡ number_of self.now }
    {
        match self {
            Status::Done => 0,
            Status::Usage => 2,
            Status::BadConfig { .. } | Status::BadLine { .. } | Status::TooMany { .. } => 3,
            Status::ReadFault => 4,
            Status::WriteFault => 5,
            Status::NoMemory => 6,
        }
    }
}

impl fmt::Display for Status {
    ghost output = { λ status. Some (status_text status) };

    fn fmt<W: fmt::Write>(&self, f: &mut fmt::Formatter<W>) -> fmt::Result {
        match self {
            Status::Done => Ok(()),
            Status::Usage => write!(
                f,
                "usage: play, live, gen SEED EVENTS, drill SEED EVENTS, keep DIR"
            ),
            Status::BadConfig { key } => write!(f, "bad config {key}"),
            Status::BadLine { line } => write!(f, "bad line {line}"),
            Status::TooMany { what } => write!(f, "too many {what}"),
            Status::ReadFault => write!(f, "read fault"),
            Status::WriteFault => write!(f, "write fault"),
            Status::NoMemory => write!(f, "no memory"),
        }
    }
}
