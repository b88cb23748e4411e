// Numbers among the words of a command.
ghost use Rattle.std.specs.Prelude.{◌≡◌, ◌<◌, ◌≤◌, IfSome, length};
ghost use Rattle.avf_tool.specs.Numbers.{is_plain, number, within};

fn within(n: u64, least: u64, most: u64) -> Option<u64>
    ensures is { result ≡ within least most n }
    ensures fits { IfSome result (λ r. (least ≤ r) × (r ≤ most)) }
{
    if least <= n && n <= most {
        Some(n)
    } else {
        None
    }
}

// Whether the digits are `0` itself or have no zero in front.
fn is_plain(digits: &[u8]) -> bool
    requires { 0 < length digits.now }
    ensures { result ≡ is_plain digits.now }
{
    digits.len() == 1 || digits[0] != b'0'
}

/// The number from `least` to `most` that a word spells in decimal digits, with no sign and no zero in front.
pub fn number(text: &str, least: u64, most: u64) -> Option<u64>
    ensures is { result ≡ number least most text.now }
    ensures fits { IfSome result (λ r. (least ≤ r) × (r ≤ most)) }
{
    let bytes = text.as_bytes();
    if bytes.is_empty() || bytes[0] == b'+' {
        return None;
    }
    if !is_plain(bytes) {
        return None;
    }
    match text.parse::<u64>() {
        Ok(n) => within(n, least, most),
        Err(_) => None,
    }
}
