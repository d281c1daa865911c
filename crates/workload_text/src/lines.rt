// The lines at the front of bytes.
ghost use Rattle.std.specs.Prelude.{◌≡◌, ◌≢◌, ℕ, ◌^◌, ◌<◌, ◌≤◌, List, ◌++◌, decimal, IfSome, IfNone};
ghost use Rattle.set_model.specs.declared.calls.Call.{Call};
ghost use Rattle.text_lines.specs.Lines.{line, numbered, HasNoFeed};
ghost use Rattle.workload_text.specs.Limits.{HasLawfulKey};
ghost use Rattle.text_lines.specs.Calls.{call_text};

use crate::workload::MOST_KEY;
use set_model::Call;
use text_lines::{Number, read_number};

/// The bytes of the line at the front, without its line feed, and the bytes behind it. None where
/// there is no line feed: a rest without one is no line.
pub fn split_line(bytes: &[u8]) -> Option<(&[u8], &[u8])>
    ensures found { IfSome result (λ x. (bytes.now ≡ line x.0.now ++ x.1.now) × HasNoFeed x.0.now) }
    ensures none { IfNone result (HasNoFeed bytes.now) }
{
    for (i, byte) in bytes.iter().enumerate() {
        if *byte == b'\n' {
            return Some((&bytes[..i], &bytes[i + 1..]));
        }
    }
    None
}

/// The number up to `most` behind a word and a blank. None where the text is no such one.
pub fn number_behind(text: &[u8], word: &[u8], most: u64) -> Option<u64>
    ensures found { IfSome result (λ n. (n ≤ most) × (text.now ≡ numbered word.now n)) }
    ensures none { IfNone result ((n : ℕ) → n ≤ most → text.now ≢ numbered word.now n) }
{
    let digits = text.strip_prefix(word)?.strip_prefix(b" ")?;
    match read_number(digits, most) {
        Number::Value(number) => Some(number),
        Number::TooLarge => None,
        Number::NoNumber => None,
    }
}

/// The number up to `most` of the line at the front, whose bytes are its digits, and the bytes
/// behind the line.
fn number_line(bytes: &[u8], most: u64) -> Option<(u64, &[u8])>
    requires { most < 10 ^ 18 }
    ensures found { IfSome result (λ x. (x.0 ≤ most) × (bytes.now ≡ line (decimal x.0) ++ x.1.now)) }
    ensures none { IfNone result ((n : ℕ) (rest : List ℕ) → n ≤ most → bytes.now ≢ line (decimal n) ++ rest) }
{
    let mut value = 0;
    for (i, byte) in bytes.iter().enumerate() {
        if *byte == b'\n' {
            if i == 0 {
                return None;
            }
            if i > 1 && bytes[0] == b'0' {
                return None;
            }
            if value > most {
                return None;
            }
            return Some((value, &bytes[i + 1..]));
        }
        if !byte.is_ascii_digit() {
            return None;
        }
        if value > most {
            return None;
        }
        value = value * 10 + u64::from(*byte - b'0');
    }
    None
}

/// The call of the line at the front, and the bytes behind the line. None where there is no such
/// line, or its key is out of range.
pub fn call_at(bytes: &[u8]) -> Option<(Call, &[u8])>
    ensures found { IfSome result (λ x. HasLawfulKey x.0
        × (bytes.now ≡ line (call_text x.0) ++ x.1.now)) }
    ensures none { IfNone result ((call : Call) (rest : List ℕ) → HasLawfulKey call
        → bytes.now ≢ line (call_text call) ++ rest) }
{
    match bytes {
        [b'i', b' ', digits @ ..] => {
            let (key, rest) = number_line(digits, MOST_KEY)?;
            Some((Call::Insert(key), rest))
        }
        [b'r', b' ', digits @ ..] => {
            let (key, rest) = number_line(digits, MOST_KEY)?;
            Some((Call::Remove(key), rest))
        }
        [b's', b' ', digits @ ..] => {
            let (key, rest) = number_line(digits, MOST_KEY)?;
            Some((Call::Search(key), rest))
        }
        _ => None,
    }
}
