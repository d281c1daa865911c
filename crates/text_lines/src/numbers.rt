// Reading numbers.
ghost use Rattle.std.specs.Prelude.{◌≡◌, ℕ, ◌<◌, ◌≤◌, decimal};
ghost use Rattle.text_lines.specs.Numbers.{Writes, OnValue};

/// What bytes write, where a number up to a limit is wanted.
#[derive(Clone, Copy, Debug, PartialEq, Eq)]
pub enum Number {
    /// This number, which is at most the limit.
    Value(u64),
    /// A number above the limit, of however many digits.
    TooLarge,
    /// No number: no digit, another byte than a digit, or a zero before other digits.
    NoNumber,
}

/// Reads a number from 0 to `most` from all of the bytes. It takes no memory.
pub fn read_number(bytes: &[u8], most: u64) -> Number
    // It tells just what the bytes write.
    ensures writes { Writes bytes.now most result }
    // They are the digits that printing the number gives.
    ensures printed { OnValue result (λ n. bytes.now ≡ decimal n) }
{
    if bytes.is_empty() {
        return Number::NoNumber;
    }
    if bytes[0] == b'0' && bytes.len() > 1 {
        return Number::NoNumber;
    }
    let limit = u128::from(most);
    let mut value = 0;
    for byte in bytes {
        if !byte.is_ascii_digit() {
            return Number::NoNumber;
        }
        if value <= limit {
            value = value * 10 + u128::from(*byte - b'0');
        }
    }
    if value <= limit {
        Number::Value(value as u64)
    } else {
        Number::TooLarge
    }
}
