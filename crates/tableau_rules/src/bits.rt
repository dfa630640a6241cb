//! Sets of small numbers, for whoever keeps many of them. The plain form is an ascending list
//! (specs/Sets.antt), and callers see that; kept is a bit for each number, and no word more than
//! the greatest number needs. So equal sets are equal words, the fewest words with the bits of the
//! numbers (`words_of` of specs/Words.antt), and a set is compared and hashed by its words. A set
//! of formulas of a query of f formulas has at most f / 64 words, rounded up.

ghost use Rattle.std.specs.Int.{bit_at};
ghost use Rattle.std.specs.List.Sorted.{IsStrictlyIncreasing};
ghost use Rattle.std.specs.Prelude.{◌≡◌, ℕ, ◌+◌, ◌*◌, ◌/◌, ◌^◌, ◌<◌, ◌≤◌, ◌↔◌, ◌⊎◌, IsTrue, false, [], All, OnOk, OnErr, IfSome, IfNone, IfOk, ◌∷◌, MatchOption, length, slice_index, ◌==◌, ◌||◌, ◌&&◌, not, vec_len, nat_eq, fold, flat_map};
ghost use Rattle.std.specs.Hash as fed;
ghost use Rattle.std.specs.Cmp.Lexicographic.{pointwise};
ghost use Rattle.std.specs.Cmp.Rules.{comparing};
ghost use Rattle.std.proofs.Common.{rules, ap};
ghost use Rattle.std.proofs.lemmas.Slice.Eq.{bytes_eq-Decides};
ghost use Rattle.tableau_rules.specs.Sets.{has_number, with_number, without_number, numbers_from, least_from, first_in, changed};
ghost use Rattle.tableau_rules.specs.Words.{has_bit, numbers_of, words_of, is_given, bit_after, IsTrimmed};

use source_sink::Memory;
use std::alloc::Global;
use std::hash::{Hash, Hasher};
use std::marker::Model;

/// A set of numbers below 65,536.
#[derive(Drop)]
pub struct Bits {
    // Bit `x % 64` of word `x / 64` stands for the number `x`. The last word is not 0.
    words: Vec<u64>,
}

impl Model for Bits {
    ghost use Rattle.std.specs.Prelude.{ℕ, List};
    ghost use Rattle.tableau_rules.specs.Words.{numbers_of, IsFit};

    ghost Value = { List ℕ };

    ghost view = { λ s. numbers_of s.words.items };

    ghost invariant = { λ s. IsFit s.words.items };
}

fn get_bit(words: &[u64], number: u16) -> bool
    ensures { result ≡ has_bit words.now number }
{
    let at = usize::from(number / 64);
    if at < words.len() {
        (words[at] >> (number % 64)) & 1 == 1
    } else {
        false
    }
}

fn set_bit(words: &mut Vec<u64>, number: u16)
    requires { number / 64 < vec_len words.old }
    ensures bits { (z : ℕ) → has_bit words.new.items z ≡ (z == number || has_bit words.old.items z) }
    ensures trimmed { (number / 64 + 1 ≡ vec_len words.old) ⊎ IsTrimmed words.old.items
        → IsTrimmed words.new.items }
    ensures len { vec_len words.new ≡ vec_len words.old }
{
    words[usize::from(number / 64)] |= 1 << (number % 64);
}

fn clear_bit(words: &mut Vec<u64>, number: u16)
    ensures bits { (z : ℕ) → has_bit words.new.items z ≡ (not (z == number) && has_bit words.old.items z) }
    ensures len { vec_len words.new ≡ vec_len words.old }
{
    let at = usize::from(number / 64);
    if at < words.len() {
        words[at] &= !(1 << (number % 64));
    }
}

// Sees to it that there is a word at this place.
fn make_room(words: &mut Vec<u64>, at: usize) -> Result<(), Memory>
    requires { at < 1024 }
    ensures room { OnOk result (at < vec_len words.new) }
    ensures bits { OnOk result ((z : ℕ) → has_bit words.new.items z ≡ has_bit words.old.items z) }
    ensures trimmed { OnOk result ((at + 1 ≡ vec_len words.new)
        ⊎ (IsTrimmed words.old.items → IsTrimmed words.new.items)) }
    ensures few { vec_len words.old ≤ 1024 → vec_len words.new ≤ 1024 }
    ensures same { OnErr result (words.new.items ≡ words.old.items) }
{
    if words.len() <= at {
        words.resize(at + 1, 0)?;
    }
    Ok(())
}

// Takes away the words at the end that are 0: with them two vectors could have the same numbers.
fn trim(words: &mut Vec<u64>)
    ensures bits { (z : ℕ) → has_bit words.new.items z ≡ has_bit words.old.items z }
    ensures trimmed { IsTrimmed words.new.items }
    ensures few { vec_len words.new ≤ vec_len words.old }
{
    while !words.is_empty() && words[words.len() - 1] == 0 {
        words.pop();
    }
}

// The least bit of a word that is not below `from`.
fn least_bit(word: u64, from: u32) -> Option<u32>
    requires { from < 64 }
    ensures some { IfSome result (λ k. (from ≤ k) × (k < 64) × (bit_at word k ≡ 1)
        × ((j : ℕ) → from ≤ j → j < k → bit_at word j ≡ 0)) }
    ensures none { IfNone result ((j : ℕ) → from ≤ j → bit_at word j ≡ 0) }
{
    let rest = word & (u64::MAX << from);
    if rest == 0 {
        None
    } else {
        Some(rest.trailing_zeros())
    }
}

// The least number of the word at this place that is not below `from`.
fn least_in_word(words: &[u64], at: usize, from: u16) -> Option<u16>
    requires at { at < length words.now }
    requires few { length words.now ≤ 1024 }
    requires from { from < 64 * at + 64 }
    ensures some { IfSome result (λ y. (from ≤ y) × (y < 64 * at + 64) × IsTrue (has_bit words.now y)
        × ((z : ℕ) → from ≤ z → 64 * at ≤ z → z < y → has_bit words.now z ≡ false)) }
    ensures none { IfNone result
        ((z : ℕ) → from ≤ z → 64 * at ≤ z → z < 64 * at + 64 → has_bit words.now z ≡ false) }
{
    let low = usize::from(from).saturating_sub(64 * at);
    match least_bit(words[at], low as u32) {
        Some(bit) => Some(64 * at as u16 + bit as u16),
        None => None,
    }
}

// The least number of the words that is not below `from`.
fn least_in(words: &[u64], from: u16) -> Option<u16>
    requires { length words.now ≤ 1024 }
    ensures { result ≡ least_from from (numbers_of words.now) }
{
    for at in usize::from(from / 64)..words.len() {
        if let Some(number) = least_in_word(words, at, from) {
            return Some(number);
        }
    }
    None
}

// The least number of the word at this place that both have.
fn least_of_both(a: &[u64], b: &[u64], at: usize) -> Option<u16>
    requires a { at < length a.now }
    requires b { at < length b.now }
    requires few { length a.now ≤ 1024 }
    ensures some { IfSome result (λ y. (64 * at ≤ y) × (y < 64 * at + 64) × IsTrue (has_bit a.now y && has_bit b.now y)
        × ((z : ℕ) → 64 * at ≤ z → z < y → (has_bit a.now z && has_bit b.now z) ≡ false)) }
    ensures none { IfNone result
        ((z : ℕ) → 64 * at ≤ z → z < 64 * at + 64 → (has_bit a.now z && has_bit b.now z) ≡ false) }
{
    match least_bit(a[at] & b[at], 0) {
        Some(bit) => Some(64 * at as u16 + bit as u16),
        None => None,
    }
}

// The least number that both have.
fn first_of_both(a: &[u64], b: &[u64]) -> Option<u16>
    requires { length a.now ≤ 1024 }
    ensures { result ≡ first_in (numbers_of b.now) (numbers_of a.now) }
{
    for at in 0..a.len().min(b.len()) {
        if let Some(number) = least_of_both(a, b, at) {
            return Some(number);
        }
    }
    None
}

fn equal_words(a: &[u64], b: &[u64]) -> bool
    ensures { IsTrue result ↔ (a.now ≡ b.now) }
{
    a == b
}

// Whether the words have the same numbers, which are the same words where both are trimmed.
fn same_numbers(a: &[u64], b: &[u64]) -> bool
    requires a { IsTrimmed a.now }
    requires b { IsTrimmed b.now }
    ensures { IsTrue result ↔ (numbers_of a.now ≡ numbers_of b.now) }
{
    equal_words(a, b)
}

// The word at this place with the number, if it is one of the word's.
fn word_with(word: u64, at: usize, number: Option<u16>) -> u64
    ensures { (k : ℕ) → k < 64
        → (bit_at result k == 1) ≡ (is_given number (64 * at + k) || (bit_at word k == 1)) }
{
    match number {
        Some(number) => {
            if usize::from(number / 64) == at {
                word | (1 << (number % 64))
            } else {
                word
            }
        }
        None => word,
    }
}

// The word at this place without the number, if it is one of the word's.
fn word_without(word: u64, at: usize, number: Option<u16>) -> u64
    ensures { (k : ℕ) → k < 64
        → (bit_at result k == 1) ≡ (not (is_given number (64 * at + k)) && (bit_at word k == 1)) }
{
    match number {
        Some(number) => {
            if usize::from(number / 64) == at {
                word & !(1 << (number % 64))
            } else {
                word
            }
        }
        None => word,
    }
}

// What the word at this place becomes.
fn word_after(
    word: u64,
    at: usize,
    gone: Option<u16>,
    first: Option<u16>,
    second: Option<u16>,
) -> u64
    ensures { (k : ℕ) → k < 64
        → (bit_at result k == 1) ≡ bit_after gone first second (64 * at + k) (bit_at word k == 1) }
{
    word_with(
        word_with(word_without(word, at, gone), at, first),
        at,
        second,
    )
}

// The word at this place: 0 past the end.
fn word_at(words: &[u64], at: usize) -> u64
    ensures { result ≡ slice_index words.now at }
{
    if at < words.len() { words[at] } else { 0 }
}

// How many words reach up to the number.
fn words_for(number: Option<u16>) -> usize
    ensures few { result ≤ 1024 }
    ensures within { (z : ℕ) → IsTrue (is_given number z) → z < 64 * result }
{
    match number {
        Some(number) => usize::from(number / 64) + 1,
        None => 0,
    }
}

// Whether the new words are the old ones after the change.
fn is_after(
    old: &[u64],
    gone: Option<u16>,
    first: Option<u16>,
    second: Option<u16>,
    new: &[u64],
) -> bool
    ensures { IsTrue result ↔
        ((z : ℕ) → has_bit new.now z ≡ bit_after gone first second z (has_bit old.now z)) }
{
    let end = old
        .len()
        .max(new.len())
        .max(words_for(first))
        .max(words_for(second));
    for at in 0..end {
        if word_at(new, at) != word_after(word_at(old, at), at, gone, first, second) {
            return false;
        }
    }
    true
}

// Feeds a hasher the words, which are those of their numbers.
fn feed<H: Hasher>(words: &[u64], state: &mut H)
    requires { IsTrimmed words.now }
    ensures fed { state.new ≡ fold H.write state.old (flat_map fed.u64 (words_of (numbers_of words.now))) }
{
    'words: for word in words {
        state.write_u64(*word);
    }
}

impl Bits {
    /// The empty set. It takes no memory.
    pub fn new(alloc: Global) -> Bits
        ensures { result ≡ [] }
    {
        Bits {
            words: Vec::new(alloc),
        }
    }

    /// Whether the number is in the set.
    pub fn has(&self, number: u16) -> bool
        ensures { result ≡ has_number self.now number }
    {
        get_bit(&self.words, number)
    }

    /// Puts the number in, where it is not there yet. Where memory runs out the set stays as it
    /// was.
    pub fn add(&mut self, number: u16) -> Result<(), Memory>
        ensures added { OnOk result (self.new ≡ with_number number self.old) }
        ensures same { OnErr result (self.new ≡ self.old) }
    {
        make_room(&mut self.words, usize::from(number / 64))?;
        set_bit(&mut self.words, number);
        Ok(())
    }

    /// Takes the number out, where it is there.
    pub fn remove(&mut self, number: u16)
        ensures { self.new ≡ without_number number self.old }
    {
        clear_bit(&mut self.words, number);
        trim(&mut self.words);
    }

    /// The least number of the set that is not below `from`. A loop that goes on from the number
    /// after it meets each number of the set once, in ascending order.
    pub fn least_from(&self, from: u16) -> Option<u16>
        ensures least { result ≡ least_from from self.now }
        ensures run { MatchOption result (numbers_from from self.now ≡ [])
            (λ y. (from ≤ y) × (numbers_from from self.now ≡ y ∷ numbers_from (y + 1) self.now)) }
        ensures ascending { IsStrictlyIncreasing self.now }
        ensures small { All (λ y. y < 2 ^ 16) self.now }
    {
        least_in(&self.words, from)
    }

    /// The least number that both sets have.
    pub fn first_in(&self, other: &Bits) -> Option<u16>
        ensures { result ≡ first_in other.now self.now }
    {
        first_of_both(&self.words, &other.words)
    }

    /// Whether both sets have the same numbers.
    pub fn same(&self, other: &Bits) -> bool
        ensures { IsTrue result ↔ (self.now ≡ other.now) }
    {
        same_numbers(&self.words, &other.words)
    }

    /// Another set with the same numbers.
    pub fn clone(&self, alloc: Global) -> Result<Bits, Memory>
        ensures { IfOk result (λ s. s ≡ self.now) }
    {
        Ok(Bits {
            words: Vec::from_slice(alloc, &self.words)?,
        })
    }

    /// Makes this the empty set. The words keep their place in memory.
    pub fn clear(&mut self)
        ensures { self.new ≡ [] }
    {
        self.words.clear();
    }

    /// Makes this the other set. The words keep their place in memory, where there is room.
    pub fn copy(&mut self, other: &Bits) -> Result<(), Memory>
        ensures { OnOk result (self.new ≡ other.now) }
    {
        self.words.clear();
        self.words.reserve_exact(other.words.len())?;
        self.words.extend_from_slice(&other.words)?;
        Ok(())
    }

    /// Whether this is the old set after a change: one number taken out, then two put in, where
    /// they are given. It goes word by word and takes no memory.
    pub fn follows(
        &self,
        old: &Bits,
        gone: Option<u16>,
        first: Option<u16>,
        second: Option<u16>,
    ) -> bool
        ensures { IsTrue result ↔ (self.now ≡ changed gone first second old.now) }
    {
        is_after(&old.words, gone, first, second, &self.words)
    }
}

impl PartialEq for Bits {
    ghost eq = { pointwise nat_eq };

    ghost laws = { Prim.search (comparing, rules) };

    fn eq(&self, other: &Bits) -> bool {
        self.same(other)
    }
}

impl Eq for Bits {
    ghost laws = { Prim.search (comparing, rules) };
}

// The words alone: how many they are is known from them, since the last is not 0.
impl Hash for Bits {
    ghost hash_input = { λ s. flat_map fed.u64 (words_of s) };

    ghost respects_eq = { λ a b h. ap (λ s. flat_map fed.u64 (words_of s)) ((bytes_eq-Decides a b).0 h) };

    fn hash<H: Hasher>(&self, state: &mut H) {
        feed(&self.words, state);
    }
}
