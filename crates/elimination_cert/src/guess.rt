//! What a line is taken to spell, whatever its bytes. The reader writes a guess again and compares,
//! so nothing is tested here: a guess has only to fit the space, and to be the node or the number
//! where the line is the line of one. Any other line may be taken for anything.

ghost use Rattle.std.specs.Prelude.{◌≡◌, ℕ, ◌<◌, ◌≤◌, ◌==◌, IfOk, length, position};
ghost use Rattle.state_space.specs.Spaces.{sizes};
ghost use Rattle.tableau_rules.specs.Turns.{sets_of};
ghost use Rattle.tableau_rules.specs.CertView.{reason_of, cert_node_of};
ghost use Rattle.elimination_cert.specs.Guesses.{before, behind, number_in, small_in, listed_in, formulas_in as formulas_of, kids_in as kids_of, with_value, set_in as set_of, with_entry, with_entries, pieces, now_in as now_of, reason_in as reason_form, behind_reason, field, behind_field, node_in, count_in};

use smallvec::SmallVec;
use source_sink::{Memory, value_up_to};
use state_space::{Space, Values, VarId};
use std::alloc::Global;
use tableau_rules::{Bits, CertNode, Mark, Node, Reason};

/// Where the first such byte stands.
pub(crate) fn place_of(bytes: &[u8], byte: u8) -> Option<usize>
    ensures { result ≡ position (λ b. b == byte) bytes.now }
{
    bytes.iter().position(|b| *b == byte)
}

// The bytes before the first such byte, and those behind it.
fn cut(bytes: &[u8], byte: u8) -> (&[u8], &[u8])
    ensures before { result.0.now ≡ before byte bytes.now }
    ensures behind { result.1.now ≡ behind byte bytes.now }
{
    match place_of(bytes, byte) {
        Some(at) => (&bytes[..at], &bytes[at + 1..]),
        None => (bytes, &bytes[bytes.len()..]),
    }
}

// The number of 32 bits that the digits are.
#[tactic(auto, unfolding(crate::specs::Guesses::number_in))]
fn number_in(digits: &[u8]) -> u32
    ensures { result ≡ number_in digits.now }
{
    value_up_to(digits, 4_294_967_295) as u32
}

// The number of 16 bits that the digits are.
#[tactic(auto, unfolding(crate::specs::Guesses::small_in))]
fn small_in(digits: &[u8]) -> u16
    ensures { result ≡ small_in digits.now }
{
    number_in(digits).min(65535) as u16
}

// A list without the `-` of an empty one.
fn listed_in(bytes: &[u8]) -> &[u8]
    ensures { result.now ≡ listed_in bytes.now }
{
    if bytes == b"-".as_slice() {
        &bytes[bytes.len()..]
    } else {
        bytes
    }
}

fn formulas_in(alloc: Global, bytes: &[u8]) -> Result<Bits, Memory>
    ensures { IfOk result (λ formulas. formulas ≡ formulas_of bytes.now) }
{
    let mut formulas = Bits::new(alloc);
    let mut rest = listed_in(bytes);
    'pieces: while !rest.is_empty() {
        let (piece, others) = cut(rest, b',');
        formulas.add(small_in(piece))?;
        rest = others;
    }
    Ok(formulas)
}

fn kids_in(alloc: Global, bytes: &[u8]) -> Result<SmallVec<u32, 2>, Memory>
    ensures { IfOk result (λ kids. kids.items ≡ kids_of bytes.now) }
{
    let mut kids = SmallVec::new(alloc);
    let mut rest = listed_in(bytes);
    'pieces: while !rest.is_empty() && kids.len() < 2 {
        let (piece, others) = cut(rest, b',');
        kids.push(number_in(piece))?;
        rest = others;
    }
    Ok(kids)
}

// The set with one index more, if it is below the size.
fn with_value(set: Values, text: &[u8], size: u8) -> Values
    requires { size ≤ 64 }
    ensures { result.0 ≡ with_value size text.now set.0 }
{
    let value = number_in(text);
    if value < u32::from(size) {
        set.with(value as u8)
    } else {
        set
    }
}

fn set_in(bytes: &[u8], size: u8) -> Values
    requires { size ≤ 64 }
    ensures { result.0 ≡ set_of size bytes.now }
{
    let mut set = Values::none();
    let mut rest = bytes;
    'pieces: while !rest.is_empty() {
        let (piece, others) = cut(rest, b'+');
        set = with_value(set, piece, size);
        rest = others;
    }
    set
}

// Puts the set of an entry in, if it is of a variable.
fn put_entry(space: &Space, now: &mut [Values], entry: &[u8])
    requires { length now.old ≡ length (sizes space.now) }
    ensures { sets_of now.new ≡ with_entry (sizes space.now) (sets_of now.old) entry.now }
{
    let (name, set) = cut(entry, b'=');
    let x = number_in(name);
    if x < u32::from(space.count()) {
        now[x as usize] = set_in(set, space.size_of(VarId(x as u8)));
    }
}

// Puts the sets of the entries in.
fn put_entries(space: &Space, now: &mut [Values], bytes: &[u8])
    requires { length now.old ≡ length (sizes space.now) }
    ensures { sets_of now.new ≡ with_entries (sizes space.now) (pieces 44 bytes.now) (sets_of now.old) }
{
    let mut rest = bytes;
    'pieces: while !rest.is_empty() {
        let (piece, others) = cut(rest, b',');
        put_entry(space, now, piece);
        rest = others;
    }
}

#[tactic(auto, unfolding(crate::specs::Guesses::now_in))]
fn now_in(alloc: Global, space: &Space, bytes: &[u8]) -> Result<Vec<Values>, Memory>
    ensures { IfOk result (λ now. sets_of now.items ≡ now_of (sizes space.now) bytes.now) }
{
    let mut now = Vec::from_slice(alloc, space.full())?;
    put_entries(space, &mut now, listed_in(bytes));
    Ok(now)
}

// The reason, and what stands behind it.
#[tactic(auto, unfolding(crate::specs::Guesses::reason_in, crate::specs::Guesses::behind_reason))]
fn reason_in(bytes: &[u8]) -> (Reason, &[u8])
    ensures reason { reason_of result.0 ≡ reason_form bytes.now }
    ensures rest { result.1.now ≡ behind_reason bytes.now }
{
    let (word, rest) = cut(bytes, b' ');
    if word == b"clash".as_slice() {
        return (Reason::Clash, rest);
    }
    if word == b"dead".as_slice() {
        return (Reason::Dead, rest);
    }
    let (until, rest) = cut(rest, b' ');
    (Reason::Wait(small_in(until)), rest)
}

// What stands behind one word, and what comes then.
fn field(bytes: &[u8]) -> (&[u8], &[u8])
    ensures field { result.0.now ≡ field bytes.now }
    ensures rest { result.1.now ≡ behind_field bytes.now }
{
    let (_, rest) = cut(bytes, b' ');
    cut(rest, b' ')
}

/// The node that a line is taken to spell. Only memory can be wanting.
pub(crate) fn guessed_node(alloc: Global, space: &Space, line: &[u8]) -> Result<CertNode, Memory>
    ensures { IfOk result (λ entry. cert_node_of entry ≡ node_in (sizes space.now) line.now) }
{
    let (rank, rest) = cut(line, b' ');
    let (reason, rest) = reason_in(rest);
    let (todo, rest) = field(rest);
    let (now, rest) = field(rest);
    let (next, rest) = field(rest);
    let (_, rest) = cut(rest, b' ');
    let (kids, _) = cut(rest, b'\n');
    let node = Node {
        todo: formulas_in(alloc, todo)?,
        now: now_in(alloc, space, now)?,
        next: formulas_in(alloc, next)?,
    };
    let mark = Mark {
        rank: number_in(rank),
        reason,
    };
    Ok(CertNode {
        node,
        kids: kids_in(alloc, kids)?,
        mark,
    })
}

/// The number of nodes that a first line is taken to have.
pub(crate) fn count_in(line: &[u8]) -> u32
    ensures { result ≡ count_in line.now }
{
    let (digits, _) = cut(&line[line.len().min(12)..], b'\n');
    number_in(digits)
}
