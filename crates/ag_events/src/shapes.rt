//! Lines by the words that follow their names.
ghost use Rattle.std.specs.Prelude.{◌≡◌, ◌∷◌, ◌++◌, OnOk};
ghost use Rattle.std.specs.Fmt.{decimal};
ghost use Rattle.std.specs.List.{flat_map};
ghost use Rattle.ag_script.specs.Words.{value_text, suffix_words, pair_words};
ghost use Rattle.ag_events.specs.Texts.{tail_text, who_byte};

use crate::text::{put_number, put_suffix, put_text, put_value, put_who};
use ag_model::event::{Pair, Suffix, Who};
use ag_model::value::{NoMemory, Value};

/// Adds a line of its name alone at the end.
pub(crate) fn put_plain(name: &[u8], suffix: &Suffix, out: &mut Vec<u8>) -> Result<(), NoMemory>
    ensures { OnOk result (out.new.items ≡ out.old.items ++ (name.now ++ (tail_text (suffix_words suffix.now)))) }
{
    put_text(name, out)?;
    put_suffix(suffix, out)
}

/// Adds a line of a replica at the end.
pub(crate) fn put_node(
    name: &[u8],
    node: &Who,
    suffix: &Suffix,
    out: &mut Vec<u8>,
) -> Result<(), NoMemory>
    ensures { OnOk result (out.new.items ≡ out.old.items ++ (name.now ++ (32 ∷ who_byte node.now ∷ tail_text (suffix_words suffix.now)))) }
{
    put_text(name, out)?;
    put_who(node, out)?;
    put_suffix(suffix, out)
}

/// Adds a line of a replica and a number at the end.
pub(crate) fn put_one(
    name: &[u8],
    node: &Who,
    number: u64,
    suffix: &Suffix,
    out: &mut Vec<u8>,
) -> Result<(), NoMemory>
    ensures { OnOk result (out.new.items ≡ out.old.items ++ (name.now ++ (32 ∷ who_byte node.now ∷ 32 ∷ (decimal number ++ tail_text (suffix_words suffix.now))))) }
{
    put_text(name, out)?;
    put_who(node, out)?;
    put_number(number, out)?;
    put_suffix(suffix, out)
}

/// Adds a line of a replica and two numbers at the end.
pub(crate) fn put_two(
    name: &[u8],
    node: &Who,
    first: u64,
    second: u64,
    suffix: &Suffix,
    out: &mut Vec<u8>,
) -> Result<(), NoMemory>
    ensures { OnOk result (out.new.items ≡ out.old.items ++ (name.now ++ (32 ∷ who_byte node.now ∷ 32 ∷ (decimal first ++ 32 ∷ (decimal second ++ tail_text (suffix_words suffix.now)))))) }
{
    put_text(name, out)?;
    put_who(node, out)?;
    put_number(first, out)?;
    put_number(second, out)?;
    put_suffix(suffix, out)
}

/// Adds a line of two replicas at the end.
pub(crate) fn put_nodes(
    name: &[u8],
    node: &Who,
    to: &Who,
    suffix: &Suffix,
    out: &mut Vec<u8>,
) -> Result<(), NoMemory>
    ensures { OnOk result (out.new.items ≡ out.old.items ++ (name.now ++ (32 ∷ who_byte node.now ∷ 32 ∷ who_byte to.now ∷ tail_text (suffix_words suffix.now)))) }
{
    put_text(name, out)?;
    put_who(node, out)?;
    put_who(to, out)?;
    put_suffix(suffix, out)
}

/// Adds a line of a message between two replicas at the end.
pub(crate) fn put_message(
    name: &[u8],
    node: &Who,
    to: &Who,
    number: u64,
    suffix: &Suffix,
    out: &mut Vec<u8>,
) -> Result<(), NoMemory>
    ensures { OnOk result (out.new.items ≡ out.old.items ++ (name.now ++ (32 ∷ who_byte node.now ∷ 32 ∷ who_byte to.now ∷ 32 ∷ (decimal number ++ tail_text (suffix_words suffix.now))))) }
{
    put_text(name, out)?;
    put_who(node, out)?;
    put_who(to, out)?;
    put_number(number, out)?;
    put_suffix(suffix, out)
}

/// Adds a line of a change of a key at the end.
pub(crate) fn put_change(
    name: &[u8],
    node: &Who,
    txn: u64,
    key: u64,
    value: &Value,
    suffix: &Suffix,
    out: &mut Vec<u8>,
) -> Result<(), NoMemory>
    ensures { OnOk result (out.new.items ≡ out.old.items ++ (name.now ++ (32 ∷ who_byte node.now ∷ 32 ∷ (decimal txn ++ 32 ∷ (decimal key ++ 32 ∷ (value_text value.now ++ tail_text (suffix_words suffix.now))))))) }
{
    put_text(name, out)?;
    put_who(node, out)?;
    put_number(txn, out)?;
    put_number(key, out)?;
    put_value(value, out)?;
    put_suffix(suffix, out)
}

/// Adds a line of a page that one replica asks of another at the end.
pub(crate) fn put_asked(
    name: &[u8],
    node: &Who,
    page: u64,
    to: &Who,
    suffix: &Suffix,
    out: &mut Vec<u8>,
) -> Result<(), NoMemory>
    ensures { OnOk result (out.new.items ≡ out.old.items ++ (name.now ++ (32 ∷ who_byte node.now ∷ 32 ∷ (decimal page ++ 32 ∷ who_byte to.now ∷ tail_text (suffix_words suffix.now))))) }
{
    put_text(name, out)?;
    put_who(node, out)?;
    put_number(page, out)?;
    put_who(to, out)?;
    put_suffix(suffix, out)
}

/// Adds a key and its value at the end.
fn put_pair(pair: &Pair, out: &mut Vec<u8>) -> Result<(), NoMemory>
    ensures { OnOk result (out.new.items ≡ out.old.items ++ tail_text (pair_words pair.now)) }
{
    put_number(u64::from(pair.key), out)?;
    put_value(&pair.value, out)
}

/// Adds pairs at the end.
fn put_pairs(pairs: &[Pair], out: &mut Vec<u8>) -> Result<(), NoMemory>
    ensures { OnOk result (out.new.items ≡ out.old.items ++ flat_map (λ pair. tail_text (pair_words pair)) pairs.now) }
{
    for pair in pairs {
        put_pair(pair, out)?;
    }
    Ok(())
}

/// Adds pairs and the suffix at the end.
fn put_pairs_and_suffix(pairs: &[Pair], suffix: &Suffix, out: &mut Vec<u8>) -> Result<(), NoMemory>
    ensures { OnOk result (out.new.items ≡ out.old.items ++ tail_text (flat_map pair_words pairs.now ++ suffix_words suffix.now)) }
{
    put_pairs(pairs, out)?;
    put_suffix(suffix, out)
}

/// Adds a line of pairs at the end.
pub(crate) fn put_set(
    name: &[u8],
    node: &Who,
    pairs: &[Pair],
    suffix: &Suffix,
    out: &mut Vec<u8>,
) -> Result<(), NoMemory>
    ensures { OnOk result (out.new.items ≡ out.old.items ++ (name.now ++ (32 ∷ who_byte node.now ∷ tail_text (flat_map pair_words pairs.now ++ suffix_words suffix.now)))) }
{
    put_text(name, out)?;
    put_who(node, out)?;
    put_pairs_and_suffix(pairs, suffix, out)
}
