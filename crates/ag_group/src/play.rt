//! Playing a scenario.
ghost use Rattle.std.specs.Prelude.{◌≡◌, ◌≢◌, ◌⊎◌, ℕ, ◌<◌, ◌≤◌, List, length, Some, IfSome, IfNone, IfOk};
ghost use Rattle.std.specs.Io.KnownBytes.{Keeps, IsAtEnd};
ghost use Rattle.ag_outside.specs.Counts.{HasRisen};
ghost use Rattle.ag_model.specs.declared.config.Config.{Config};
ghost use Rattle.ag_model.specs.declared.event.Event.{Event};
ghost use Rattle.ag_rules.specs.Script.{IsConfig};
ghost use Rattle.ag_group.specs.declared.status.ConfigKey.{ConfigKey};
ghost use Rattle.ag_group.specs.Statuses.{IsUnlessStopped};
ghost use Rattle.ag_group.specs.Scenario.{default_config, most_bytes, HasScript, IsScenario, HasNoHead, HasBadLine, HasTooManyEvents};
ghost use Rattle.ag_group.specs.Played.{IsPlayed, IsPlayedInPart};

use crate::events::{RunError, run_events};
use crate::status::{Bound, ConfigKey, Status};
use ag_law_kept::failovers_keep_commits;
use ag_law_reads::reads_right;
use ag_law_reverted::reverted_as_restored;
use ag_law_sessions::sessions_never_fall;
use ag_model::config::{Config, Mode, ModeList};
use ag_outside::stream::{Sink, Source};
use ag_outside::whole::{ReadError, read_all};
use ag_script::fault::ScriptFault;
use ag_script::script::read_events;
use std::alloc::{AllocError, Global};

/// Plays the scenario that the source has, and writes its transcript to the sink: a header line, and a line for each answer.
///
/// The statuses come in this order: reading (`ReadFault`, `TooMany` text), then the head (`BadConfig`), then the lines
/// (`BadLine`, `TooMany` events), then the events with their writes (`WriteFault`).
pub fn play<S: Source, K: Sink>(alloc: Global, source: &mut S, sink: &mut K) -> Status
    // The whole run.
    ensures done { result ≡ Status.Done → IsPlayed (S.left source.old) (K.taken sink.old) (K.taken sink.new) }
    ensures end { result ≡ Status.Done → IsAtEnd (S.left source.new) }

    // At any other status, a front of it or nothing.
    ensures part { IsPlayedInPart (S.left source.old) (K.taken sink.old) (K.taken sink.new)
        ⊎ Keeps (K.taken sink.old) (K.taken sink.new) }
    ensures nothing { result ≢ Status.Done → result ≢ Status.WriteFault → result ≢ Status.NoMemory →
        Keeps (K.taken sink.old) (K.taken sink.new) }

    // The causes.
    ensures no_usage { result ≢ Status.Usage }
    ensures bad_config { (key : ConfigKey) → result ≡ Status.BadConfig key →
        (key ≡ ConfigKey.Head) × IfSome (S.left source.old) HasNoHead }
    ensures bad_line { (line : ℕ) → result ≡ Status.BadLine line → IfSome (S.left source.old) (λ text. HasBadLine text line) }
    ensures too_long { result ≡ Status.TooMany Bound.Text → IfSome (S.left source.old) (λ text. most_bytes < length text) }
    ensures too_many { result ≡ Status.TooMany Bound.Events → IfSome (S.left source.old) HasTooManyEvents }
    ensures read_fault { result ≡ Status.ReadFault → HasRisen (S.faults source.old) (S.faults source.new) }
    ensures write_fault { result ≡ Status.WriteFault → HasRisen (K.faults sink.old) (K.faults sink.new) }

    // Each text that isn't a scenario is told, unless the source fails or memory runs out.
    ensures tells_long { IfSome (S.left source.old) (λ text. most_bytes < length text →
        IsUnlessStopped (Status.TooMany Bound.Text) result) }
    ensures tells_head { IfSome (S.left source.old) (λ text. HasNoHead text →
        IsUnlessStopped (Status.BadConfig ConfigKey.Head) result) }
    ensures tells_bad_line { IfSome (S.left source.old) (λ text. (line : ℕ) → HasBadLine text line →
        IsUnlessStopped (Status.BadLine line) result) }
    ensures tells_many { IfSome (S.left source.old) (λ text. HasTooManyEvents text →
        IsUnlessStopped (Status.TooMany Bound.Events) result) }

    // A scenario is played, unless something fails or memory runs out.
    ensures complete { IfSome (S.left source.old) (λ text. (c : Config) (events : List Event) → IsScenario text c events →
        (HasRisen (S.faults source.old) (S.faults source.new) → ⊥) → (HasRisen (K.faults sink.old) (K.faults sink.new) → ⊥) →
        (result ≡ Status.Done) ⊎ (result ≡ Status.NoMemory)) }
{
    match read_all(alloc, source) {
        Err(ReadError::Failed) => Status::ReadFault,
        Err(ReadError::TooLong) => Status::TooMany { what: Bound::Text },
        Err(ReadError::NoMemory) => Status::NoMemory,
        Ok(text) => play_text(alloc, text.as_slice(), sink),
    }
}

/// The config of an empty head.
fn default_config(alloc: Global) -> Result<Config, AllocError>
    ensures value { IfOk result (λ c. c ≡ default_config) }
    ensures config { IfOk result (λ c. IsConfig c) }
{
    Ok(Config {
        pages: 16,
        modes: ModeList::from_vec(vec![in alloc; Mode::Sync, Mode::Sync]?),
        workers: 4,
        readers: 2,
    })
}

/// What stands after an empty head and its end.
fn script_of(text: &[u8]) -> Option<&[u8]>
    ensures found { IfSome result (λ script. HasScript text.now script.now) }
    ensures none { IfNone result ((script : List ℕ) → HasScript text.now script → ⊥) }
{
    text.strip_prefix(b"---\n".as_slice())
}

/// Plays a text.
fn play_text<K: Sink>(alloc: Global, text: &[u8], sink: &mut K) -> Status
    requires { length text.now ≤ most_bytes }
    ensures done { result ≡ Status.Done → IsPlayed (Some text.now) (K.taken sink.old) (K.taken sink.new) }
    ensures part { IsPlayedInPart (Some text.now) (K.taken sink.old) (K.taken sink.new) ⊎ Keeps (K.taken sink.old) (K.taken sink.new) }
    ensures nothing { result ≢ Status.Done → result ≢ Status.WriteFault → result ≢ Status.NoMemory → Keeps (K.taken sink.old) (K.taken sink.new) }
    ensures never { (result ≢ Status.Usage) × (result ≢ Status.ReadFault) × (result ≢ Status.TooMany Bound.Text) }
    ensures bad_config { (key : ConfigKey) → result ≡ Status.BadConfig key → (key ≡ ConfigKey.Head) × HasNoHead text.now }
    ensures bad_line { (line : ℕ) → result ≡ Status.BadLine line → HasBadLine text.now line }
    ensures too_many { result ≡ Status.TooMany Bound.Events → HasTooManyEvents text.now }
    ensures write_fault { result ≡ Status.WriteFault → HasRisen (K.faults sink.old) (K.faults sink.new) }
    ensures tells_head { HasNoHead text.now → result ≡ Status.BadConfig ConfigKey.Head }
    ensures tells_bad_line { (line : ℕ) → HasBadLine text.now line → (result ≡ Status.BadLine line) ⊎ (result ≡ Status.NoMemory) }
    ensures tells_many { HasTooManyEvents text.now → (result ≡ Status.TooMany Bound.Events) ⊎ (result ≡ Status.NoMemory) }
    ensures complete { (c : Config) (events : List Event) → IsScenario text.now c events →
        (HasRisen (K.faults sink.old) (K.faults sink.new) → ⊥) → (result ≡ Status.Done) ⊎ (result ≡ Status.NoMemory) }
{
    reads_right();
    sessions_never_fall();
    failovers_keep_commits();
    reverted_as_restored();
    let Some(script) = script_of(text) else {
        return Status::BadConfig {
            key: ConfigKey::Head,
        };
    };
    let Ok(c) = default_config(alloc) else {
        return Status::NoMemory;
    };
    match read_events(alloc, script, 2, &c) {
        Err(ScriptFault::BadLine { line }) => Status::BadLine { line },
        Err(ScriptFault::Events) => Status::TooMany {
            what: Bound::Events,
        },
        Err(ScriptFault::NoMemory) => Status::NoMemory,
        Ok(events) => match run_events(alloc, &c, events.as_slice(), sink) {
            Ok(()) => Status::Done,
            Err(RunError::WriteFault) => Status::WriteFault,
            Err(RunError::NoMemory) => Status::NoMemory,
        },
    }
}
