//! Single bits of a row, for the seams that words do not fit: the loop's end, and the operators
//! that look from one position to the next. The bit of a place is bit `place % 64` of word `place /
//! 64`.

ghost use Rattle.std.specs.Prelude.{◌≡◌, ◌≢◌, ℕ, ◌+◌, ◌/◌, ◌%◌, ◌<◌, ◌↔◌, IsTrue, length, slice_index};
ghost use Rattle.std.specs.Int.{bit_at};
ghost use Rattle.lasso_checker.specs.Places.{bit_of};

/// The bit at a place of the row that begins at the word `base`.
pub fn get_bit(table: &[u64], base: usize, place: usize) -> bool
    requires { base + place / 64 < length table.now }
    ensures bit { IsTrue result ↔ (bit_of table.now base place ≡ 1) }
{
    (table[base + place / 64] >> (place % 64)) & 1 == 1
}

/// The word with one bit written.
pub fn with_bit(word: u64, at: usize, value: bool) -> u64
    requires { at < 64 }
    ensures here { IsTrue value ↔ (bit_at result at ≡ 1) }
    ensures rest { (r : ℕ) → r < 64 → r ≢ at → bit_at result r ≡ bit_at word r }
{
    let one = 1u64 << at;
    if value { word | one } else { word & !one }
}

/// Writes the bit at a place of the row that begins at the word `base`.
pub fn set_bit(table: &mut [u64], base: usize, place: usize, value: bool)
    requires { base + place / 64 < length table.old }
    ensures here { IsTrue value ↔ (bit_of table.new base place ≡ 1) }
    ensures rest { (r : ℕ) → r ≢ place → bit_of table.new base r ≡ bit_of table.old base r }
    ensures words { (k : ℕ) → k ≢ base + place / 64
        → slice_index table.new k ≡ slice_index table.old k }
{
    table[base + place / 64] = with_bit(table[base + place / 64], place % 64, value);
}
