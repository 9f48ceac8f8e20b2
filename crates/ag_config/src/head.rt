//! Reading a head.
ghost use Rattle.std.specs.Prelude.{◌≡◌, ◌⊎◌, IfOk, MatchResult, Ok, Err};
ghost use Rattle.std.specs.List.{list_all};
ghost use Rattle.ag_model.specs.declared.config.Config.{Config};
ghost use Rattle.ag_rules.specs.Script.{IsConfig};
ghost use Rattle.toml.specs.View.{table_view};
ghost use Rattle.ag_config.specs.declared.fault.ConfigKey.{ConfigKey};
ghost use Rattle.ag_config.specs.Head.{config_of, config_of_head, keys_of, is_known};
ghost use Rattle.ag_config.specs.Outcomes.{Answers};

use crate::fault::{ConfigFault, ConfigKey};
use crate::values::{pages_of, readers_of, replicas_of, workers_of};
use ag_model::config::Config;
use std::alloc::Global;
use toml::Table;

/// The config that a head says, or its first fault. The faults come in this order: bytes that aren't UTF-8 or no TOML document, a key
/// that isn't known, then the values of `pages`, `replicas`, `workers` and `readers`.
pub fn read_config(alloc: Global, head: &[u8]) -> Result<Config, ConfigFault>
    ensures config { IfOk result (λ c. config_of_head head.now ≡ Ok c) }
    ensures in_range { IfOk result (λ c. IsConfig c) }
    ensures bad_config { (key : ConfigKey) → result ≡ Err (ConfigFault.BadConfig key) → config_of_head head.now ≡ Err key }
    // each outcome of the head is told, unless memory runs out
    ensures tells_config { (c : Config) → config_of_head head.now ≡ Ok c →
        MatchResult result (λ found. found ≡ c) (λ fault. fault ≡ ConfigFault.NoMemory) }
    ensures tells_fault { (key : ConfigKey) → config_of_head head.now ≡ Err key →
        MatchResult result (λ _. ⊥) (λ fault. (fault ≡ ConfigFault.BadConfig key) ⊎ (fault ≡ ConfigFault.NoMemory)) }
{
    read_head(alloc, head)
}

/// The same, told by one clause.
fn read_head(alloc: Global, head: &[u8]) -> Result<Config, ConfigFault>
    ensures { Answers result (config_of_head head.now) }
{
    match toml::table_from_slice(alloc, head) {
        Ok(table) => read_table(alloc, &table),
        Err(e) if e.is_memory() => Err(ConfigFault::NoMemory),
        Err(_) => Err(bad(ConfigKey::Toml)),
    }
}

/// The config that a document says, or its first fault.
fn read_table(alloc: Global, table: &Table) -> Result<Config, ConfigFault>
    ensures { Answers result (config_of (table_view table.now)) }
{
    if !has_known_keys(table) {
        return Err(bad(ConfigKey::Unknown));
    }
    let Some(pages) = pages_of(table) else {
        return Err(bad(ConfigKey::Pages));
    };
    let Some(modes) = replicas_of(alloc, table)? else {
        return Err(bad(ConfigKey::Replicas));
    };
    let Some(workers) = workers_of(table) else {
        return Err(bad(ConfigKey::Workers));
    };
    let Some(readers) = readers_of(table) else {
        return Err(bad(ConfigKey::Readers));
    };
    Ok(Config {
        pages,
        modes,
        workers,
        readers,
    })
}

/// The fault of a key.
fn bad(key: ConfigKey) -> ConfigFault
    ensures { result ≡ ConfigFault.BadConfig key }
{
    ConfigFault::BadConfig { key }
}

/// Whether each key is one that a head may have.
fn has_known_keys(table: &Table) -> bool
    ensures { result ≡ list_all is_known (keys_of (table_view table.now)) }
{
    for key in table.keys() {
        if !is_known(key.as_str()) {
            return false;
        }
    }
    true
}

/// Whether a head may have a key.
fn is_known(key: &str) -> bool
    ensures { result ≡ is_known key.now }
{
    matches!(key, "pages" | "replicas" | "workers" | "readers")
}
