//! The texts of values, and of sets of them, as a model has them: what other crates write of
//! values, they write with these. The bytes are those of specs/ValueTexts.antt.

ghost use Rattle.std.specs.Prelude.{◌≡◌, ◌++◌, ◌<◌, ◌≤◌, ◌==◌, pos, ◌+ℤ◌, OnOk, map, if◌then◌else◌, codes};
ghost use Rattle.std.specs.Fmt.{signed_decimal};
ghost use Rattle.state_space.specs.Ranges.{span, form_of, size_of};
ghost use Rattle.state_space.specs.ValueTexts.{value_text, members, listed, set_text};

use crate::range::Range;
use crate::values::Values;
use itoa::Buffer;
use std::alloc::AllocError;

fn put_number(out: &mut Vec<u8>, n: i64) -> Result<(), AllocError>
    ensures { OnOk result (out.new.items ≡ out.old.items ++ signed_decimal n) }
{
    let mut buffer = Buffer::new();
    out.extend_from_slice(buffer.format(n).as_bytes())
}

fn put_truth(out: &mut Vec<u8>, index: u8) -> Result<(), AllocError>
    ensures { OnOk result (out.new.items ≡ out.old.items ++ (if index == 1 then codes "true" else codes "false")) }
{
    if index == 1 {
        out.extend_from_slice(b"true")
    } else {
        out.extend_from_slice(b"false")
    }
}

// The number at an index of a span.
fn number_at(low: i64, high: i64, index: u8) -> i64
    requires { index < size_of (span low high) }
    ensures { result ≡ low +ℤ pos index }
{
    let number = low + index as i64;
    prove!(number <= high);
    number
}

impl Range {
    /// Appends the text of a value: `true` or `false`, its name, or the number. Where memory runs
    /// out, part of it may have been appended.
    pub fn put_value(&self, out: &mut Vec<u8>, index: u8) -> Result<(), AllocError>
        requires { index < size_of (form_of self.now) }
        ensures { OnOk result (out.new.items ≡ out.old.items ++ value_text (form_of self.now) index) }
    {
        match self {
            Range::Bool => put_truth(out, index),
            Range::Names(names) => out.extend_from_slice(names[index as usize].bytes()),
            Range::Span { lo, hi } => put_number(out, number_at(*lo, *hi, index)),
        }
    }

    // One value more of those that are listed.
    fn put_next(&self, out: &mut Vec<u8>, index: u8, first: bool) -> Result<(), AllocError>
        requires { index < size_of (form_of self.now) }
        ensures { OnOk result (out.new.items ≡ out.old.items ++ (if first then value_text (form_of self.now) index else codes ", " ++ value_text (form_of self.now) index)) }
    {
        if !first {
            out.extend_from_slice(b", ")?;
        }
        self.put_value(out, index)
    }

    // The values of the set that the range has, with commas between them.
    fn put_members(&self, out: &mut Vec<u8>, set: Values) -> Result<(), AllocError>
        requires { size_of (form_of self.now) ≤ 64 }
        ensures { OnOk result (out.new.items ≡ out.old.items ++ listed (map (value_text (form_of self.now)) (members set.0 (size_of (form_of self.now))))) }
    {
        let mut first = true;
        'values: for index in 0..self.size() as u8 {
            if set.contains(index) {
                self.put_next(out, index, first)?;
                first = false;
            }
        }
        Ok(())
    }

    /// Appends the text of a set of values, `{v, w}`, of a range of at most 64. Where memory runs
    /// out, part of it may have been appended.
    #[tactic(auto, unfolding(crate::specs::ValueTexts::set_text))]
    pub fn put_set(&self, out: &mut Vec<u8>, set: Values) -> Result<(), AllocError>
        requires { size_of (form_of self.now) ≤ 64 }
        ensures { OnOk result (out.new.items ≡ out.old.items ++ set_text (form_of self.now) set.0) }
    {
        out.extend_from_slice(b"{")?;
        self.put_members(out, set)?;
        out.extend_from_slice(b"}")
    }
}
