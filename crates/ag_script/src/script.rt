//! The events of a script.
ghost use Rattle.std.specs.Prelude.{◌≡◌, ℕ, ◌+◌, ◌<◌, ◌≤◌, ◌^◌, ◌⊎◌, length, IfOk, IsErrOf, IsTrue, ◌↔◌, Err, List, MatchResult};
ghost use Rattle.ag_model.specs.declared.event.Event.{Event};
ghost use Rattle.ag_rules.specs.Script.{IsConfig, IsScript};
ghost use Rattle.ag_built.specs.Built.{AreBuilt, HaveValues};
ghost use Rattle.ag_script.specs.Lines.{IsSkipped, IsScriptText, IsFirstBad, IsTooMany};
ghost use Rattle.ag_script.specs.LineKinds.{IsOfKind};

use crate::built::is_built;
use crate::fault::ScriptFault;
use crate::find::find;
use crate::line::event_of;
use ag_model::config::Config;
use ag_model::event::{Event, EventList};
use std::alloc::{AllocError, Global};

/// The most event lines that a scenario may have.
const MAX_EVENTS: usize = 200_000;

/// What a line is.
#[derive(Debug, Drop)]
pub(crate) enum Line {
    Skipped,
    Says(Event),
    Bad,
}

/// The events of a script. Its first line has the number `first_line`. An error is the first bad line, an event line too many
/// before any bad line, or want of memory.
pub fn read_events(
    alloc: Global,
    text: &[u8],
    first_line: u32,
    c: &Config,
) -> Result<EventList, ScriptFault>
    requires lines { first_line + length text.now < 2 ^ 32 }
    requires config { IsConfig c.now }
    ensures script { IfOk result (λ events. IsScriptText c.now text.now events) }
    ensures in_range { IfOk result (λ events. IsScript c.now events) }
    ensures built { IfOk result (λ events. AreBuilt events) }
    ensures values { IfOk result (λ events. HaveValues events) }
    ensures bad_line { (line : ℕ) → result ≡ Err (ScriptFault.BadLine line) →
        (before : ℕ) × (line ≡ first_line + before) × IsFirstBad c.now text.now before }
    ensures events { IsErrOf result ScriptFault.Events → IsTooMany c.now text.now }
    // each outcome of the text is told, unless memory runs out
    ensures tells_script { (events : List Event) → IsScriptText c.now text.now events →
        MatchResult result (λ found. found ≡ events) (λ fault. fault ≡ ScriptFault.NoMemory) }
    ensures tells_bad_line { (before : ℕ) → IsFirstBad c.now text.now before →
        MatchResult result (λ _. ⊥) (λ fault. (fault ≡ ScriptFault.BadLine (first_line + before)) ⊎ (fault ≡ ScriptFault.NoMemory)) }
    ensures tells_events { IsTooMany c.now text.now →
        MatchResult result (λ _. ⊥) (λ fault. (fault ≡ ScriptFault.Events) ⊎ (fault ≡ ScriptFault.NoMemory)) }
{
    read_lines(alloc, text, first_line, c)
}

/// The events of a script, line by line.
fn read_lines(
    alloc: Global,
    text: &[u8],
    first_line: u32,
    c: &Config,
) -> Result<EventList, ScriptFault>
    requires lines { first_line + length text.now < 2 ^ 32 }
    requires pages { c.now.pages ≤ 2048 }
    ensures script { IfOk result (λ events. IsScriptText c.now text.now events) }
    ensures bad_line { (line : ℕ) → result ≡ Err (ScriptFault.BadLine line) →
        (before : ℕ) × (line ≡ first_line + before) × IsFirstBad c.now text.now before }
    ensures events { IsErrOf result ScriptFault.Events → IsTooMany c.now text.now }
{
    let mut events = EventList::new(alloc);
    let mut rest = text;
    let mut line = first_line;
    'lines: while !rest.is_empty() {
        let Some(end) = find(rest, b'\n') else {
            return Err(ScriptFault::BadLine { line });
        };
        match read_line(alloc, c, &rest[..end])? {
            Line::Skipped => {}
            Line::Says(event) => {
                if events.len() >= MAX_EVENTS {
                    return Err(ScriptFault::Events);
                }
                events.push(event)?;
            }
            Line::Bad => return Err(ScriptFault::BadLine { line }),
        }
        rest = &rest[end + 1..];
        line += 1;
    }
    Ok(events)
}

/// What a line is.
fn read_line(alloc: Global, c: &Config, line: &[u8]) -> Result<Line, AllocError>
    requires { c.now.pages ≤ 2048 }
    ensures { IfOk result (λ found. IsOfKind c.now line.now found) }
{
    if is_skipped(line) {
        return Ok(Line::Skipped);
    }
    let Some(event) = event_of(alloc, c, line)? else {
        return Ok(Line::Bad);
    };
    if is_built(&event) {
        Ok(Line::Says(event))
    } else {
        Ok(Line::Bad)
    }
}

/// Whether a line is empty or begins with `#`.
fn is_skipped(line: &[u8]) -> bool
    ensures { IsTrue result ↔ IsSkipped line.now }
{
    matches!(line, [] | [b'#', ..])
}
