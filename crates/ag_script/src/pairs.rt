//! Lines of `set`.
ghost use Rattle.std.specs.Prelude.{◌≡◌, IfOk};
ghost use Rattle.ag_script.specs.ReadWords.{Reads, pairs_at};
ghost use Rattle.ag_script.specs.Shapes.{read, set_shape};

use crate::words::Words;
use ag_model::config::Config;
use ag_model::event::{Event, Pair, PairList};
use std::alloc::{AllocError, Global};

/// The most pairs of a `set`.
const MAX_PAIRS: usize = 8;

/// The event of a `set`, by what follows its name.
pub(crate) fn set(
    alloc: Global,
    words: &mut Words<'_>,
    c: &Config,
) -> Result<Option<Event>, AllocError>
    ensures { IfOk result (λ found. found ≡ read (set_shape c.now) words.old) }
{
    let Some(node) = words.node(c) else {
        return Ok(None);
    };
    let Some(pairs) = pairs_of(alloc, words)? else {
        return Ok(None);
    };
    let Some(suffix) = words.suffix() else {
        return Ok(None);
    };
    Ok(Some(Event::Set {
        node,
        pairs,
        suffix,
    }))
}

/// 1 to 8 pairs.
fn pairs_of(alloc: Global, words: &mut Words<'_>) -> Result<Option<PairList>, AllocError>
    ensures { IfOk result (λ found. Reads found words.new (pairs_at words.old)) }
{
    let mut pairs = PairList::new(alloc);
    'pairs: while pairs.len() < MAX_PAIRS {
        let Some(key) = words.next_key() else {
            break;
        };
        let Some(value) = words.value() else {
            return Ok(None);
        };
        pairs.push(Pair { key, value })?;
    }
    if pairs.is_empty() {
        return Ok(None);
    }
    Ok(Some(pairs))
}
