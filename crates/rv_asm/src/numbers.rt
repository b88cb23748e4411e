//! Numbers: decimal digits with an optional minus, or `0x` and hexadecimal digits.
ghost use Rattle.std.specs.Prelude.{◌≡◌, ◌<◌, ◌≤◌, ◌^◌, IfSome, option_map};
ghost use Rattle.std.specs.Char.{digit_value, is_digit};
ghost use Rattle.rv_asm.specs.Numbers as spec;

/// A number above it counts as it: it is in no range.
pub const NUMBER_BOUND: u64 = 0x100_0000_0000;

/// The value of a digit or a letter, from 0 for '0' to 35 for 'Z' and 'z', and 36 for any other byte.
fn digit_value(byte: u8) -> u64
    ensures value { result ≡ digit_value byte }
    ensures within { result ≤ 36 }
{
    match byte {
        b'0'..=b'9' => u64::from(byte - b'0'),
        b'A'..=b'Z' => u64::from(byte - b'A') + 10,
        b'a'..=b'z' => u64::from(byte - b'a') + 10,
        _ => 36,
    }
}

/// Whether each byte is a digit in a base.
fn are_digits(base: u64, digits: &[u8]) -> bool
    ensures { result ≡ spec.are_digits base digits.now }
{
    digits.iter().all(|digit| digit_value(*digit) < base)
}

/// What digits are worth behind those that are worth `number`, or `NUMBER_BOUND` where that is less.

fn value_of(base: u64, digits: &[u8]) -> u64
    requires least { 0 < base }
    requires most { base ≤ 16 }
    ensures value { result ≡ spec.bounded (spec.value_behind base 0 digits.now) }
    ensures within { result ≤ NUMBER_BOUND }
{
    let mut number = 0;
    for digit in digits {
        number = NUMBER_BOUND.min(number * base + digit_value(*digit));
    }
    number
}

/// The number that digits spell in a base; none where they are no digits, or there are none.
#[tactic(auto, unfolding(crate::specs::Numbers::magnitude))]
fn magnitude(base: u64, digits: &[u8]) -> Option<u64>
    requires least { 0 < base }
    requires most { base ≤ 16 }
    ensures value { result ≡ spec.magnitude base digits.now }
    ensures within { IfSome result (λ n. n ≤ NUMBER_BOUND) }
{
    if digits.is_empty() || !are_digits(base, digits) {
        None
    } else {
        Some(value_of(base, digits))
    }
}

fn negative(digits: &[u8]) -> Option<i64>
    ensures { result ≡ option_map spec.negative (spec.magnitude 10 digits.now) }
{
    Some(-(magnitude(10, digits)? as i64))
}

fn positive(base: u64, digits: &[u8]) -> Option<i64>
    requires least { 0 < base }
    requires most { base ≤ 16 }
    ensures { result ≡ option_map spec.positive (spec.magnitude base digits.now) }
{
    Some(magnitude(base, digits)? as i64)
}

/// The number that a word spells, up to `NUMBER_BOUND`.
#[tactic(auto, unfolding(crate::specs::Numbers::number))]
pub fn number(word: &[u8]) -> Option<i64>
    ensures { result ≡ spec.number word.now }
{
    if let Some(digits) = word.strip_prefix(b"-".as_slice()) {
        return negative(digits);
    }
    if let Some(digits) = word.strip_prefix(b"0x".as_slice()) {
        return positive(16, digits);
    }
    positive(10, word)
}
