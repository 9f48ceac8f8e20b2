//! What a document says of each key.
ghost use Rattle.std.specs.Prelude.{◌≡◌, [], ◌∷◌, IfOk, option_map};
ghost use Rattle.toml.specs.Data.{get_member};
ghost use Rattle.toml.specs.View.{view, array_view, table_view};
ghost use Rattle.ag_config.specs.Head as spec;

use ag_model::config::{Mode, ModeList};
use std::alloc::{AllocError, Global};
use toml::value::Array;
use toml::{Table, Value};

/// The most replicas of a group.
const MAX_REPLICAS: usize = 5;

/// The number of pages: 16 to 2,048, and 16 where none is said.
pub(crate) fn pages_of(table: &Table) -> Option<u16>
    ensures { result ≡ spec.pages_of (table_view table.now) }
{
    number_at(table, "pages", 16, 2048, 16)
}

/// The number of workers: 1 to 16, and 4 where none is said.
pub(crate) fn workers_of(table: &Table) -> Option<u8>
    ensures { result ≡ spec.workers_of (table_view table.now) }
{
    let workers = number_at(table, "workers", 1, 16, 4)?;
    u8::try_from(workers).ok()
}

/// The number of readers: 1 to 16, and 2 where none is said.
pub(crate) fn readers_of(table: &Table) -> Option<u8>
    ensures { result ≡ spec.readers_of (table_view table.now) }
{
    let readers = number_at(table, "readers", 1, 16, 2)?;
    u8::try_from(readers).ok()
}

/// The mode of each replica: 1 to 5 words, and twice `sync` where none are said.
pub(crate) fn replicas_of(alloc: Global, table: &Table) -> Result<Option<ModeList>, AllocError>
    ensures { IfOk result (λ modes. modes ≡ spec.replicas_of (table_view table.now)) }
{
    match value_at(table, "replicas") {
        Some(value) => replicas_in(alloc, value),
        None => Ok(Some(two_synchronous(alloc)?)),
    }
}

/// The modes where none are said.
fn two_synchronous(alloc: Global) -> Result<ModeList, AllocError>
    ensures { IfOk result (λ modes. modes ≡ Mode.Sync ∷ Mode.Sync ∷ []) }
{
    let modes = vec![in alloc; Mode::Sync, Mode::Sync]?;
    Ok(ModeList::from_vec(modes))
}

/// The modes of an array of 1 to 5 words, if the value is one.
fn replicas_in(alloc: Global, value: &Value) -> Result<Option<ModeList>, AllocError>
    ensures { IfOk result (λ modes. modes ≡ spec.replicas_in (view value.now)) }
{
    match value.as_array() {
        Some(values) => modes_of(alloc, values),
        None => Ok(None),
    }
}

/// The modes of 1 to 5 words.
fn modes_of(alloc: Global, values: &Array) -> Result<Option<ModeList>, AllocError>
    ensures { IfOk result (λ modes. modes ≡ spec.modes_of (spec.values_of (array_view values.now))) }
{
    if values.is_empty() || values.len() > MAX_REPLICAS {
        return Ok(None);
    }
    each_mode(alloc, values)
}

/// The modes of some values, if each is the word of one.
fn each_mode(alloc: Global, values: &Array) -> Result<Option<ModeList>, AllocError>
    ensures { IfOk result (λ modes. modes ≡ spec.each_mode (spec.values_of (array_view values.now))) }
{
    let mut modes = ModeList::new(alloc);
    for value in values {
        let Some(mode) = mode_in(value) else {
            return Ok(None);
        };
        modes.push(mode)?;
    }
    Ok(Some(modes))
}

/// The mode that a value is the word of.
fn mode_in(value: &Value) -> Option<Mode>
    ensures { result ≡ spec.mode_in (view value.now) }
{
    match value.as_str()? {
        "auto" => Some(Mode::Auto),
        "sync" => Some(Mode::Sync),
        "async" => Some(Mode::Async),
        _ => None,
    }
}

/// The whole number at a key, if it lies between two bounds, both taken; or a default where the key stands nowhere.
fn number_at(table: &Table, key: &str, low: u16, high: u16, default: u16) -> Option<u16>
    ensures { result ≡ spec.said (spec.number_in low high) default (get_member key.now (table_view table.now)) }
{
    match value_at(table, key) {
        Some(value) => number_in(value, low, high),
        None => Some(default),
    }
}

/// A whole number between two bounds, both taken.
fn number_in(value: &Value, low: u16, high: u16) -> Option<u16>
    ensures { result ≡ spec.number_in low high (view value.now) }
{
    let number = u16::try_from(value.as_integer()?).ok()?;
    if low <= number && number <= high {
        Some(number)
    } else {
        None
    }
}

/// The value at a key.
fn value_at<'a>(table: &'a Table, key: &str) -> Option<&'a Value>
    ensures { option_map (λ value. view value.now) result ≡ get_member key.now (table_view table.now) }
{
    table.get(key)
}
