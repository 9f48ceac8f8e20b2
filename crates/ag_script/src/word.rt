//! What one word says.
ghost use Rattle.std.specs.Prelude.{◌≡◌, ◌≢◌, ◌≤◌, ◌<◌, length, slice_index, IfSome};
ghost use Rattle.std.specs.Option.{SomeIff};
ghost use Rattle.std.specs.Str.Parse.{digits_value};
ghost use Rattle.ag_script.specs.Hex.{hex_at};
ghost use Rattle.ag_script.specs.ReadWord.{IsDigits, who_at, number_at, mask_at, value_at};

use ag_model::config::Config;
use ag_model::event::Who;
use ag_model::value::Value;

/// The replica that a word names.
pub(crate) fn who_of(word: &[u8], c: &Config) -> Option<Who>
    ensures { result ≡ who_at c.now word.now }
{
    match word {
        [b'@'] => Some(Who::Primary),
        [b] if *b >= b'A' && usize::from(*b - b'A') < c.modes.len() => Some(Who::Letter(*b - b'A')),
        _ => None,
    }
}

/// A number without leading zeros, from low to high.
pub(crate) fn number_of(word: &[u8], low: u64, high: u64) -> Option<u64>
    ensures reads { result ≡ number_at low high word.now }
    ensures low { IfSome result (λ n. low ≤ n) }
    ensures high { IfSome result (λ n. n ≤ high) }
{
    match word {
        [] | [b'+', ..] | [b'0', _, ..] => None,
        _ => match digits_of(word) {
            Some(n) if low <= n && n <= high => Some(n),
            _ => None,
        },
    }
}

/// The number that digits write, where it has 64 bits.
fn digits_of(word: &[u8]) -> Option<u64>
    requires { slice_index word.now 0 ≢ 43 }
    ensures { SomeIff result (IsDigits word.now) (digits_value 10 word.now) }
{
    match str::from_utf8(word) {
        Err(_) => None,
        Ok(text) => match text.parse::<u64>() {
            Err(_) => None,
            Ok(n) => Some(n),
        },
    }
}

/// What a lower-case hex digit says.
fn hex_digit(b: u8) -> Option<u8>
    ensures is { result ≡ hex_at b }
    ensures small { IfSome result (λ d. d < 16) }
{
    match b {
        b'0'..=b'9' => Some(b - b'0'),
        b'a'..=b'f' => Some(b - b'a' + 10),
        _ => None,
    }
}

/// A mask of 1 to 16 hex digits.
#[tactic(auto, using(crate::proofs::HexLemmas::room, crate::proofs::HexLemmas::one_more))]
pub(crate) fn mask_of(word: &[u8]) -> Option<u64>
    ensures { result ≡ mask_at word.now }
{
    if word.is_empty() || word.len() > 16 {
        return None;
    }
    let mut mask = 0u64;
    'digits: for b in word {
        mask = 16 * mask + u64::from(hex_digit(*b)?);
    }
    Some(mask)
}

/// A value of 1 to 64 bytes in hex, or `-` for the empty one.
pub(crate) fn value_of(word: &[u8]) -> Option<Value>
    ensures { result ≡ value_at word.now }
{
    let mut value = Value {
        len: 0,
        bytes: [0; 64],
    };
    if word == b"-".as_slice() {
        return Some(value);
    }
    if word.is_empty() || word.len() > 128 || word.len() % 2 == 1 {
        return None;
    }
    let mut rest = word;
    'pairs: while let [a, b, more @ ..] = rest {
        value.bytes[usize::from(value.len)] = 16 * hex_digit(*a)? + hex_digit(*b)?;
        value.len += 1;
        rest = more;
    }
    Some(value)
}
