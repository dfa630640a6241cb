//! Rows that are made of other rows 64 positions at a time. The plain form is the operator at each
//! position by itself (specs/Operators.antt), and each clause says that the row is that. Where a
//! row moves by one position, the last of the loop takes the bit of the loop's first, which is set
//! alone. Measured with all else: a formula of 100 levels on a trace of 10,000 states took 0.03 to
//! 0.07 s, with reading the text (docs/ARCHITECTURE.md).

ghost use Rattle.std.specs.Prelude.{◌≡◌, ℕ, ◌+◌, ◌<◌, ◌≤◌, ◌↔◌, ◌⊎◌, IsTrue, length, slice_index};
ghost use Rattle.std.specs.Int.{bit_at};
ghost use Rattle.lasso_checker.specs.Places.{KeepsBelow};
ghost use Rattle.lasso_checker.specs.Layouts.{Row, IsRowOf};
ghost use Rattle.lasso_checker.specs.Operators.{Joined, Steps};

use crate::bits::{get_bit, set_bit, with_bit};
use crate::layout::Layout;
use crate::operators::{Join, Waiting};

// The word of this bit 64 times.
fn same_bits(value: bool) -> u64
    ensures bits { (r : ℕ) → r < 64 → (bit_at result r ≡ 1) ↔ IsTrue value }
{
    if value { u64::MAX } else { 0 }
}

// The word with each bit turned round.
fn turned(word: u64) -> u64
    ensures bits { (r : ℕ) → r < 64 → (bit_at result r ≡ 1) ↔ ¬ (bit_at word r ≡ 1) }
{
    !word
}

/// Writes the same bit at each position of the row.
pub fn constant_row(table: &mut [u64], base: usize, layout: &Layout, value: bool)
    requires { base + layout.now.words ≤ length table.old }
    ensures row { IsRowOf layout.now table.new base (λ i. IsTrue value) }
    ensures below { KeepsBelow base table.old table.new }
    ensures above { (k : ℕ) → base + layout.now.words ≤ k
        → slice_index table.new k ≡ slice_index table.old k }
{
    let everywhere = same_bits(value);
    'row: for word in 0..layout.words {
        table[base + word] = everywhere;
    }
}

/// Writes the row that begins at `from` to where another begins, which shares no word with it.
pub fn copy_row(table: &mut [u64], from: usize, base: usize, layout: &Layout)
    requires apart { (from + layout.now.words ≤ base) ⊎ (base + layout.now.words ≤ from) }
    requires source { from + layout.now.words ≤ length table.old }
    requires room { base + layout.now.words ≤ length table.old }
    ensures row { IsRowOf layout.now table.new base (Row layout.now table.old from) }
    ensures below { KeepsBelow base table.old table.new }
{
    'row: for word in 0..layout.words {
        table[base + word] = table[from + word];
    }
}

/// Turns each bit of the row round.
pub fn not_row(table: &mut [u64], base: usize, layout: &Layout)
    requires { base + layout.now.words ≤ length table.old }
    ensures row { IsRowOf layout.now table.new base (λ i. ¬ (Row layout.now table.old base i)) }
    ensures below { KeepsBelow base table.old table.new }
{
    'row: for word in 0..layout.words {
        table[base + word] = turned(table[base + word]);
    }
}

/// Writes what the operator makes of two rows, one behind the other, over the first.
pub fn join_rows(join: Join, table: &mut [u64], base: usize, layout: &Layout)
    requires { base + layout.now.words + layout.now.words ≤ length table.old }
    ensures row { IsRowOf layout.now table.new base (λ i. Joined join
        (Row layout.now table.old base i)
        (Row layout.now table.old (base + layout.now.words) i)) }
    ensures below { KeepsBelow base table.old table.new }
{
    'row: for word in 0..layout.words {
        table[base + word] = join.words(table[base + word], table[base + layout.words + word]);
    }
}

/// Writes what the operator gives at each position over the third of three rows, one behind the
/// other, from the first two there and from the third.
pub fn step_rows(waiting: Waiting, table: &mut [u64], base: usize, layout: &Layout)
    requires { base + layout.now.words + layout.now.words + layout.now.words ≤ length table.old }
    ensures row { IsRowOf layout.now table.new (base + layout.now.words + layout.now.words)
        (λ i. Steps waiting
        (Row layout.now table.old base i)
        (Row layout.now table.old (base + layout.now.words) i)
        (Row layout.now table.old (base + layout.now.words + layout.now.words) i)) }
    ensures below { KeepsBelow (base + layout.now.words + layout.now.words) table.old table.new }
{
    let second = base + layout.words;
    let third = second + layout.words;
    'row: for word in 0..layout.words {
        table[third + word] = waiting.words(
            table[base + word],
            table[second + word],
            table[third + word],
        );
    }
}

// The word moved by one position, with the bit that comes in at its end.
fn moved(word: u64, entering: bool) -> u64
    ensures here { IsTrue entering ↔ (bit_at result 63 ≡ 1) }
    ensures rest { (r : ℕ) → r < 63 → bit_at result r ≡ bit_at word (r + 1) }
{
    with_bit(word >> 1, 63, entering)
}

// Whether the row's word after this one begins with a 1.
fn enters(table: &[u64], base: usize, words: usize, word: usize) -> bool
    requires within { word < words }
    requires room { base + words ≤ length table.now }
    ensures bit { IsTrue result
        ↔ ((word + 1 < words) × (bit_at (slice_index table.now (base + word + 1)) 0 ≡ 1)) }
{
    word + 1 < words && get_bit(table, base + word + 1, 0)
}

/// Writes at each position what stands at the next.
pub fn next_row(table: &mut [u64], base: usize, layout: &Layout)
    requires { base + layout.now.words ≤ length table.old }
    ensures row { IsRowOf layout.now table.new base (λ i. Row layout.now table.old base (i + 1)) }
    ensures below { KeepsBelow base table.old table.new }
{
    let back = get_bit(table, base, layout.start);
    'row: for word in 0..layout.words {
        let entering = enters(table, base, layout.words, word);
        table[base + word] = moved(table[base + word], entering);
    }
    set_bit(table, base, layout.start + layout.turn - 1, back);
}
