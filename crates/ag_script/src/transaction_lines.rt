//! Lines of transactions.
ghost use Rattle.std.specs.Prelude.{◌≡◌, ◌≤◌};
ghost use Rattle.ag_script.specs.Shapes.{read, begin_shape, get_shape, put_shape, del_shape, commit_shape, rollback_shape, trim_shape};
ghost use Rattle.ag_script.specs.Named.{first_named, transaction_shapes};

use crate::log_lines::log_event;
use crate::words::Words;
use ag_model::config::Config;
use ag_model::event::Event;

/// The event of a line of a transaction, or else of the later groups.
#[tactic(auto, unfolding(crate::specs::Named::transaction_shapes))]
pub(crate) fn transaction_event(c: &Config, name: &[u8], words: &mut Words<'_>) -> Option<Event>
    requires { c.now.pages ≤ 2048 }
    ensures { result ≡ first_named (transaction_shapes c.now) name.now words.old }
{
    if name == b"begin".as_slice() {
        return begin(words, c);
    }
    if name == b"get".as_slice() {
        return get(words, c);
    }
    if name == b"put".as_slice() {
        return put(words, c);
    }
    if name == b"del".as_slice() {
        return del(words, c);
    }
    if name == b"commit".as_slice() {
        return commit(words, c);
    }
    if name == b"rollback".as_slice() {
        return rollback(words, c);
    }
    if name == b"trim".as_slice() {
        return trim(words, c);
    }
    log_event(c, name, words)
}

fn begin(words: &mut Words<'_>, c: &Config) -> Option<Event>
    ensures { result ≡ read (begin_shape c.now) words.old }
{
    let node = words.node(c)?;
    let suffix = words.suffix()?;
    Some(Event::Begin { node, suffix })
}

fn get(words: &mut Words<'_>, c: &Config) -> Option<Event>
    ensures { result ≡ read (get_shape c.now) words.old }
{
    let node = words.node(c)?;
    let txn = words.long()?;
    let key = words.key()?;
    let suffix = words.suffix()?;
    Some(Event::Get {
        node,
        txn,
        key,
        suffix,
    })
}

fn put(words: &mut Words<'_>, c: &Config) -> Option<Event>
    ensures { result ≡ read (put_shape c.now) words.old }
{
    let node = words.node(c)?;
    let txn = words.long()?;
    let key = words.key()?;
    let value = words.value()?;
    let suffix = words.suffix()?;
    Some(Event::Put {
        node,
        txn,
        key,
        value,
        suffix,
    })
}

fn del(words: &mut Words<'_>, c: &Config) -> Option<Event>
    ensures { result ≡ read (del_shape c.now) words.old }
{
    let node = words.node(c)?;
    let txn = words.long()?;
    let key = words.key()?;
    let suffix = words.suffix()?;
    Some(Event::Del {
        node,
        txn,
        key,
        suffix,
    })
}

fn commit(words: &mut Words<'_>, c: &Config) -> Option<Event>
    ensures { result ≡ read (commit_shape c.now) words.old }
{
    let node = words.node(c)?;
    let txn = words.long()?;
    let suffix = words.suffix()?;
    Some(Event::Commit { node, txn, suffix })
}

fn rollback(words: &mut Words<'_>, c: &Config) -> Option<Event>
    ensures { result ≡ read (rollback_shape c.now) words.old }
{
    let node = words.node(c)?;
    let txn = words.long()?;
    let suffix = words.suffix()?;
    Some(Event::Rollback { node, txn, suffix })
}

fn trim(words: &mut Words<'_>, c: &Config) -> Option<Event>
    requires { c.now.pages ≤ 2048 }
    ensures { result ≡ read (trim_shape c.now) words.old }
{
    let node = words.node(c)?;
    let page = words.page(c)?;
    let horizon = words.long()?;
    let suffix = words.suffix()?;
    Some(Event::Trim {
        node,
        page,
        horizon,
        suffix,
    })
}
