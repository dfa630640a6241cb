//! Numbers as they are written, and their values. A value that a limit refuses counts as one that is just over it.

ghost use Rattle.std.specs.Prelude.{◌≡◌, ◌≤◌, min};
ghost use Rattle.model_tokens.specs.Values.{magnitude, number_value, bound_value};
ghost use Rattle.model_tokens.specs.Versions.{version_named, is_second_number};

use source_sink::value_up_to;

/// A number as it is written: its sign and its decimal digits.
#[derive(Clone, Copy)]
pub struct Numeral<'t> {
    pub negative: bool,
    pub digits: &'t [u8],
}

// The value of digits, which is 1,000,000,001 where it is over 1,000,000,000.
#[tactic(auto, unfolding(crate::specs::Values::magnitude))]
fn magnitude(digits: &[u8]) -> u64
    ensures exact { result ≡ magnitude digits.now }
    ensures bounded { result ≤ 1000000001 }
{
    value_up_to(digits, 1_000_000_001)
}

impl<'t> Numeral<'t> {
    /// The magnitude, which is 1,000,000,001 where it is over 1,000,000,000.
    pub fn magnitude(&self) -> u64
        ensures { result ≡ magnitude self.now.digits.now }
    {
        magnitude(self.digits)
    }

    /// The value, which is beyond 1,000,000,000 by one where it is beyond it.
    #[tactic(auto, unfolding(crate::specs::Values::number_value))]
    pub fn value(&self) -> i64
        ensures { result ≡ number_value self.now.negative self.now.digits.now }
    {
        let value = magnitude(self.digits) as i64;
        if self.negative { -value } else { value }
    }

    /// The value as a number of steps, which is 101 where it is not from 0 to 100.
    #[tactic(auto, unfolding(crate::specs::Values::bound_value))]
    pub fn bound(&self) -> u8
        ensures { result ≡ bound_value self.now.negative self.now.digits.now }
    {
        let value = magnitude(self.digits);
        if self.negative && value != 0 {
            return 101;
        }
        value.min(101) as u8
    }

    /// The version of the language that the value is, if it is one.
    pub fn version(&self) -> Option<u8>
        ensures { result ≡ version_named self.now.negative self.now.digits.now }
    {
        if self.negative {
            return None;
        }
        match magnitude(self.digits) {
            1 => Some(1),
            2 => Some(2),
            _ => None,
        }
    }

    /// Whether the value is 2.
    pub fn is_two(&self) -> bool
        ensures { result ≡ is_second_number self.now.negative self.now.digits.now }
    {
        !self.negative && magnitude(self.digits) == 2
    }
}
