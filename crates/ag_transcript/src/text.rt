//! Pieces of a line.
ghost use Rattle.std.specs.Prelude.{◌≡◌, ◌++◌, ◌<◌, codes, false, OnOk};
ghost use Rattle.std.specs.Fmt.{decimal, digit_glyph};
ghost use Rattle.std.specs.List.{flat_map};
ghost use Rattle.ag_transcript.specs.Words.{node_text, hex_pair};

use ag_model::value::NoMemory;
use std::io::Write;

/// Adds bytes at the end.
pub(crate) fn put_text(text: &[u8], out: &mut Vec<u8>) -> Result<(), NoMemory>
    ensures { OnOk result (out.new.items ≡ out.old.items ++ text.now) }
{
    out.extend_from_slice(text)?;
    Ok(())
}

/// Adds a number at the end.
pub(crate) fn put_number(n: u64, out: &mut Vec<u8>) -> Result<(), NoMemory>
    ensures { OnOk result (out.new.items ≡ out.old.items ++ decimal n) }
{
    if write!(out, "{n}").is_err() {
        return Err(NoMemory);
    }
    Ok(())
}

/// Adds the letter of a replica at the end.
pub(crate) fn put_letter(node: u8, out: &mut Vec<u8>) -> Result<(), NoMemory>
    ensures { OnOk result (out.new.items ≡ out.old.items ++ node_text node) }
{
    put_text(&[b'A'.wrapping_add(node)], out)
}

/// Adds a word and a number at the end.
pub(crate) fn put_named(name: &[u8], n: u64, out: &mut Vec<u8>) -> Result<(), NoMemory>
    ensures { OnOk result (out.new.items ≡ out.old.items ++ (name.now ++ decimal n)) }
{
    put_text(name, out)?;
    put_number(n, out)
}

/// Adds a word and two numbers at the end.
pub(crate) fn put_two(
    name: &[u8],
    first: u64,
    second: u64,
    out: &mut Vec<u8>,
) -> Result<(), NoMemory>
    ensures { OnOk result (out.new.items ≡ out.old.items ++ (name.now ++ decimal first ++ codes " " ++ decimal second)) }
{
    put_named(name, first, out)?;
    put_named(b" ", second, out)
}

/// Adds a word and the letter of a replica at the end.
pub(crate) fn put_node(name: &[u8], node: u8, out: &mut Vec<u8>) -> Result<(), NoMemory>
    ensures { OnOk result (out.new.items ≡ out.old.items ++ (name.now ++ node_text node)) }
{
    put_text(name, out)?;
    put_letter(node, out)
}

/// Adds a word and the letters of two replicas at the end.
pub(crate) fn put_nodes(name: &[u8], node: u8, other: u8, out: &mut Vec<u8>) -> Result<(), NoMemory>
    ensures { OnOk result (out.new.items ≡ out.old.items ++ (name.now ++ node_text node ++ codes " " ++ node_text other)) }
{
    put_node(name, node, out)?;
    put_node(b" ", other, out)
}

/// The lower-case hex digit of a number below 16.
fn hex_digit(n: u8) -> u8
    requires { n < 16 }
    ensures { result ≡ digit_glyph false n }
{
    if n < 10 { b'0' + n } else { b'a' + (n - 10) }
}

/// Adds bytes in hex at the end.
pub(crate) fn put_hex(bytes: &[u8], out: &mut Vec<u8>) -> Result<(), NoMemory>
    ensures { OnOk result (out.new.items ≡ out.old.items ++ flat_map hex_pair bytes.now) }
{
    for byte in bytes {
        put_text(&[hex_digit(byte / 16), hex_digit(byte % 16)], out)?;
    }
    Ok(())
}
