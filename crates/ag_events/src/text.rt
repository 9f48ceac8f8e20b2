//! Words of a line.
ghost use Rattle.std.specs.Prelude.{◌≡◌, ◌∷◌, ◌++◌, ◌<◌, [], false, OnOk};
ghost use Rattle.std.specs.Fmt.{decimal, digits, digit_glyph};
ghost use Rattle.std.specs.List.{flat_map};
ghost use Rattle.ag_model.specs.declared.event.Suffix.TheVariants.{Stop, Fail};
ghost use Rattle.ag_script.specs.Hex.{hex_pair};
ghost use Rattle.ag_script.specs.Words.{value_text, suffix_words};
ghost use Rattle.ag_events.specs.Texts.{tail_text, who_byte};

use ag_model::event::{Suffix, Who};
use ag_model::value::{NoMemory, Value};
use std::io::Write;

/// Adds bytes at the end.
pub(crate) fn put_text(text: &[u8], out: &mut Vec<u8>) -> Result<(), NoMemory>
    ensures { OnOk result (out.new.items ≡ out.old.items ++ text.now) }
{
    out.extend_from_slice(text)?;
    Ok(())
}

/// Adds a space and a number at the end.
pub(crate) fn put_number(n: u64, out: &mut Vec<u8>) -> Result<(), NoMemory>
    ensures { OnOk result (out.new.items ≡ out.old.items ++ 32 ∷ decimal n) }
{
    put_text(b" ", out)?;
    if write!(out, "{n}").is_err() {
        return Err(NoMemory);
    }
    Ok(())
}

/// Adds a space and a mask in hex without leading zeros at the end.
fn put_mask(mask: u64, out: &mut Vec<u8>) -> Result<(), NoMemory>
    ensures { OnOk result (out.new.items ≡ out.old.items ++ 32 ∷ digits 16 false mask) }
{
    put_text(b" ", out)?;
    if write!(out, "{mask:x}").is_err() {
        return Err(NoMemory);
    }
    Ok(())
}

/// The byte that names a replica.
fn who_letter(who: &Who) -> u8
    ensures { result ≡ who_byte who.now }
{
    match who {
        Who::Letter(node) => b'A'.wrapping_add(*node),
        Who::Primary => b'@',
    }
}

/// Adds a space and the word that names a replica at the end.
pub(crate) fn put_who(who: &Who, out: &mut Vec<u8>) -> Result<(), NoMemory>
    ensures { OnOk result (out.new.items ≡ out.old.items ++ 32 ∷ who_byte who.now ∷ []) }
{
    put_text(&[b' ', who_letter(who)], out)
}

/// The lower-case hex digit of a number below 16.
fn hex_digit(n: u8) -> u8
    requires { n < 16 }
    ensures { result ≡ digit_glyph false n }
{
    if n < 10 { b'0' + n } else { b'a' + (n - 10) }
}

/// Adds bytes in hex at the end.
fn put_hex(bytes: &[u8], out: &mut Vec<u8>) -> Result<(), NoMemory>
    ensures { OnOk result (out.new.items ≡ out.old.items ++ flat_map hex_pair bytes.now) }
{
    for byte in bytes {
        put_text(&[hex_digit(byte / 16), hex_digit(byte % 16)], out)?;
    }
    Ok(())
}

/// Adds the bytes of a value in hex at the end, or `-` for none.
fn put_bytes(value: &Value, out: &mut Vec<u8>) -> Result<(), NoMemory>
    ensures { OnOk result (out.new.items ≡ out.old.items ++ value_text value.now) }
{
    if value.len == 0 {
        return put_text(b"-", out);
    }
    let shown = usize::from(value.len).min(value.bytes.len());
    put_hex(&value.bytes[..shown], out)
}

/// Adds a space and a value at the end.
pub(crate) fn put_value(value: &Value, out: &mut Vec<u8>) -> Result<(), NoMemory>
    ensures { OnOk result (out.new.items ≡ out.old.items ++ 32 ∷ value_text value.now) }
{
    put_text(b" ", out)?;
    put_bytes(value, out)
}

/// Adds where a write is cut short at the end.
fn put_stop(write: u32, mask: u64, out: &mut Vec<u8>) -> Result<(), NoMemory>
    ensures { OnOk result (out.new.items ≡ out.old.items ++ tail_text (suffix_words (Stop write mask))) }
{
    put_text(b" stop", out)?;
    put_number(u64::from(write), out)?;
    put_mask(mask, out)
}

/// Adds which call fails at the end.
fn put_fail(call: u32, out: &mut Vec<u8>) -> Result<(), NoMemory>
    ensures { OnOk result (out.new.items ≡ out.old.items ++ tail_text (suffix_words (Fail call))) }
{
    put_text(b" fail", out)?;
    put_number(u64::from(call), out)
}

/// Adds the suffix with which a line ends at the end.
pub(crate) fn put_suffix(suffix: &Suffix, out: &mut Vec<u8>) -> Result<(), NoMemory>
    ensures { OnOk result (out.new.items ≡ out.old.items ++ tail_text (suffix_words suffix.now)) }
{
    match suffix {
        Suffix::Whole => Ok(()),
        Suffix::Stop { write, mask } => put_stop(*write, *mask, out),
        Suffix::Fail { call } => put_fail(*call, out),
    }
}
