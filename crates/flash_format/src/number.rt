//! Numbers as text.

ghost use Rattle.std.specs.Prelude.{◌≡◌, ◌≤◌, ◌^◌, min, option_map};
ghost use Rattle.flash_format.specs.Numbers as spec;

/// The limit of parsed values.
const LIMIT: u64 = 1 << 32;

/// Parses a number below 2^32: decimal, or `0x` and hexadecimal digits of either case.
#[tactic(auto, unfolding(crate::specs::Numbers::number_of))]
pub fn read_number(text: &str) -> Option<u32>
    ensures { result ≡ spec.number_of text.now }
{
    let value = match text.strip_prefix("0x") {
        Some(digits) => digits_value(16, digits.as_bytes()),
        None => digits_value(10, text.as_bytes()),
    };
    match value {
        Some(value) if value < LIMIT => Some(value as u32),
        _ => None,
    }
}

/// Returns the value, at most 2^32, or `None` without digits or with another byte.
pub fn digits_value(base: u64, digits: &[u8]) -> Option<u64>
    requires low { 1 ≤ base }
    requires high { base ≤ 16 }
    ensures { result ≡ option_map (min (2 ^ 32)) (spec.digits_value base digits.now) }
{
    if digits.is_empty() {
        return None;
    }
    let mut value = 0;
    for byte in digits {
        match char::from(*byte).to_digit(16) {
            Some(digit) if u64::from(digit) < base => {
                value = (value * base + u64::from(digit)).min(LIMIT);
            }
            _ => return None,
        }
    }
    Some(value)
}
