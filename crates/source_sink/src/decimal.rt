//! Numbers that are read: the value of decimal digits, up to a bound, so that no text is too long for it.

ghost use Rattle.std.specs.Prelude.{◌≡◌, ◌<◌, ◌^◌, min};
ghost use Rattle.source_sink.specs.Decimals.{value_behind};

/// The value of decimal digits, or `most` where it is greater. Any other byte counts as a digit of how far it is above `0`, and as 0
/// where it is below.
pub fn value_up_to(digits: &[u8], most: u64) -> u64
    requires { most < 2 ^ 60 }
    ensures exact { result ≡ min (value_behind 0 digits.now) most }
{
    let mut value = 0_u64;
    'digits: for digit in digits {
        let digit_value = u64::from(digit.saturating_sub(b'0'));
        value = (10 * value + digit_value).min(most);
    }
    value
}
