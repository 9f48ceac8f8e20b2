//! What each status says.
use ag_group::status::{Bound, ConfigKey, Status};
use std::io;

/// Prints each status with its number and its text, and each key of a config.
pub fn print(rt: &HostRuntime) -> io::Result<()> {
    let statuses = [
        Status::Done,
        Status::Usage,
        Status::BadConfig {
            key: ConfigKey::Head,
        },
        Status::BadLine { line: 2 },
        Status::TooMany { what: Bound::Text },
        Status::TooMany {
            what: Bound::Events,
        },
        Status::ReadFault,
        Status::WriteFault,
        Status::NoMemory,
    ];
    for status in statuses {
        println!(rt; "{} \"{status}\"", status.number())?;
    }
    let keys = [
        ConfigKey::Toml,
        ConfigKey::Unknown,
        ConfigKey::Pages,
        ConfigKey::Replicas,
        ConfigKey::Workers,
        ConfigKey::Readers,
    ];
    for key in keys {
        println!(rt; "\"{key}\"")?;
    }
    Ok(())
}
