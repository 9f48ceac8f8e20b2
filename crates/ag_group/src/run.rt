//! The call of the program.
ghost use Rattle.std.specs.Prelude.{◌≡◌, ◌≢◌, ◌⊎◌, ◌↔◌, ℕ, ◌<◌, List, length, IfSome};
ghost use Rattle.std.specs.Io.KnownBytes.{Keeps, IsAtEnd};
ghost use Rattle.ag_outside.specs.Counts.{HasRisen};
ghost use Rattle.ag_model.specs.declared.config.Config.{Config};
ghost use Rattle.ag_model.specs.declared.event.Event.{Event};
ghost use Rattle.ag_group.specs.declared.status.Bound.{Bound};
ghost use Rattle.ag_group.specs.declared.status.ConfigKey.{ConfigKey};
ghost use Rattle.ag_group.specs.Statuses.{IsUnlessStopped};
ghost use Rattle.ag_group.specs.Scenario.{most_bytes, IsScenario, HasNoHead, HasBadLine, HasTooManyEvents};
ghost use Rattle.ag_group.specs.Played.{IsPlayed, IsPlayedInPart};
ghost use Rattle.ag_group.specs.CommandWords.{IsPlay};

use crate::play::play;
use crate::status::Status;
use crate::words::is_play;
use ag_outside::stream::{Sink, Source};
use std::alloc::Global;

/// Does what the words of the command say. `play` is the only form so far.
pub fn run<S: Source, K: Sink>(
    alloc: Global,
    words: &[String],
    source: &mut S,
    sink: &mut K,
) -> Status
    // The words come first.
    ensures usage { result ≡ Status.Usage ↔ (IsPlay words.now → ⊥) }
    ensures source_stays { result ≡ Status.Usage → source.new ≡ source.old }
    ensures sink_stays { result ≡ Status.Usage → sink.new ≡ sink.old }

    // The whole run.
    ensures done { result ≡ Status.Done → IsPlayed (S.left source.old) (K.taken sink.old) (K.taken sink.new) }
    ensures end { result ≡ Status.Done → IsAtEnd (S.left source.new) }

    // At any other status, a front of it or nothing.
    ensures part { IsPlayedInPart (S.left source.old) (K.taken sink.old) (K.taken sink.new)
        ⊎ Keeps (K.taken sink.old) (K.taken sink.new) }
    ensures nothing { result ≢ Status.Done → result ≢ Status.WriteFault → result ≢ Status.NoMemory →
        Keeps (K.taken sink.old) (K.taken sink.new) }

    // The causes.
    ensures bad_config { (key : ConfigKey) → result ≡ Status.BadConfig key →
        (key ≡ ConfigKey.Head) × IfSome (S.left source.old) HasNoHead }
    ensures bad_line { (line : ℕ) → result ≡ Status.BadLine line → IfSome (S.left source.old) (λ text. HasBadLine text line) }
    ensures too_long { result ≡ Status.TooMany Bound.Text → IfSome (S.left source.old) (λ text. most_bytes < length text) }
    ensures too_many { result ≡ Status.TooMany Bound.Events → IfSome (S.left source.old) HasTooManyEvents }
    ensures read_fault { result ≡ Status.ReadFault → HasRisen (S.faults source.old) (S.faults source.new) }
    ensures write_fault { result ≡ Status.WriteFault → HasRisen (K.faults sink.old) (K.faults sink.new) }

    // Each text that isn't a scenario is told, unless the source fails or memory runs out.
    ensures tells_long { IsPlay words.now → IfSome (S.left source.old) (λ text. most_bytes < length text →
        IsUnlessStopped (Status.TooMany Bound.Text) result) }
    ensures tells_head { IsPlay words.now → IfSome (S.left source.old) (λ text. HasNoHead text →
        IsUnlessStopped (Status.BadConfig ConfigKey.Head) result) }
    ensures tells_bad_line { IsPlay words.now → IfSome (S.left source.old) (λ text. (line : ℕ) → HasBadLine text line →
        IsUnlessStopped (Status.BadLine line) result) }
    ensures tells_many { IsPlay words.now → IfSome (S.left source.old) (λ text. HasTooManyEvents text →
        IsUnlessStopped (Status.TooMany Bound.Events) result) }

    // A scenario is played, unless something fails or memory runs out.
    ensures complete { IsPlay words.now → IfSome (S.left source.old) (λ text. (c : Config) (events : List Event) → IsScenario text c events →
        (HasRisen (S.faults source.old) (S.faults source.new) → ⊥) → (HasRisen (K.faults sink.old) (K.faults sink.new) → ⊥) →
        (result ≡ Status.Done) ⊎ (result ≡ Status.NoMemory)) }
{
    if !is_play(words) {
        return Status::Usage;
    }
    play(alloc, source, sink)
}
