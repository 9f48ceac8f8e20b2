//! Why a head can't be read.
ghost use Rattle.std.specs.Prelude.{◌≡◌};
ghost use Rattle.ag_config.specs.declared.fault.ConfigFault.TheVariants.{NoMemory};

use std::alloc::AllocError;

/// What a head has wrong. The first that holds counts.
#[derive(Clone, Copy, Debug, PartialEq, Eq)]
pub enum ConfigKey {
    /// No line ends the head. Whoever cuts the text answers so; `read_config` doesn't.
    Head,
    /// It isn't UTF-8, or no TOML document.
    Toml,
    /// A key that isn't known.
    Unknown,
    /// The number of pages.
    Pages,
    /// The replicas.
    Replicas,
    /// The number of workers.
    Workers,
    /// The number of readers.
    Readers,
}

/// Why a head gives no config.
#[derive(Clone, Copy, Debug, PartialEq, Eq)]
pub enum ConfigFault {
    /// The first fault of the head.
    BadConfig { key: ConfigKey },
    /// Memory was refused.
    NoMemory,
}

impl From<AllocError> for ConfigFault {
    ghost from_gives = { λ _ e. e ≡ NoMemory };

    fn from(_: AllocError) -> ConfigFault {
        ConfigFault::NoMemory
    }
}
