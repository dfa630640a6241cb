//! The written forms of formulas, what they name, and lassos. A formula of a table is in prefix
//! notation: each digit is the variable of that number.

ghost use Rattle.std.specs.Prelude.{◌≡◌, ◌<◌, ◌≤◌, ◌^◌, [], ◌∷◌, length, IfOk, IsTrue};
ghost use Rattle.state_space.specs.Ranges.{truth_values};
ghost use Rattle.state_space.specs.Spaces.{ranges};
ghost use Rattle.temporal_logic.specs.Fits.{Fits};
ghost use Rattle.temporal_logic.specs.Shapes.{VariablesBelow};
ghost use Rattle.temporal_logic.specs.Trees.{tree_of};

use crate::cells::{cell, halves, number, same};
use crate::spaces::{declared, space_of, states};
use state_space::{Name, Range, Space, Values, VarId};
use std::alloc::Global;
use std::process::Abort;
use std::test::Fail;
use temporal_logic::{Cmp, Formula, Lasso, LassoRefusal, formula_text};

// The space of the truth variables `p`, `q` and `r`.
fn three_truths(alloc: Global) -> Result<Space, Fail>
    ensures { IfOk result (λ space. ranges space ≡ truth_values ∷ truth_values ∷ truth_values ∷ []) }
{
    let mut space = Space::new(alloc);
    space.add(Name::new(alloc, b"p")?, Range::Bool)?;
    space.add(Name::new(alloc, b"q")?, Range::Bool)?;
    space.add(Name::new(alloc, b"r")?, Range::Bool)?;
    Ok(space)
}

// The formula of an operator of one operand.
fn unary(sign: u8, a: Box<Formula>) -> Formula
    requires fits { Fits (truth_values ∷ truth_values ∷ truth_values ∷ []) (tree_of a.value) }
    requires below { VariablesBelow 64 (tree_of a.value) }
    ensures fits { Fits (truth_values ∷ truth_values ∷ truth_values ∷ []) (tree_of result) }
    ensures below { VariablesBelow 64 (tree_of result) }
{
    match sign {
        b'!' => Formula::Not(a),
        b'X' => Formula::Next(a),
        b'F' => Formula::Eventually(a),
        b'G' => Formula::Always(a),
        b'f' => Formula::EventuallyWithin(12, a),
        _ => Formula::AlwaysWithin(12, a),
    }
}

// The formula of an operator of two operands.
fn binary(sign: u8, a: Box<Formula>, b: Box<Formula>) -> Formula
    requires first_fits { Fits (truth_values ∷ truth_values ∷ truth_values ∷ []) (tree_of a.value) }
    requires first_below { VariablesBelow 64 (tree_of a.value) }
    requires second_fits { Fits (truth_values ∷ truth_values ∷ truth_values ∷ []) (tree_of b.value) }
    requires second_below { VariablesBelow 64 (tree_of b.value) }
    ensures fits { Fits (truth_values ∷ truth_values ∷ truth_values ∷ []) (tree_of result) }
    ensures below { VariablesBelow 64 (tree_of result) }
{
    match sign {
        b'&' => Formula::And(a, b),
        b'|' => Formula::Or(a, b),
        b'>' => Formula::Implies(a, b),
        b'=' => Formula::Iff(a, b),
        b'E' => Formula::Entails(a, b),
        b'U' => Formula::Until(a, b),
        b'W' => Formula::Unless(a, b),
        b'R' => Formula::Release(a, b),
        b'u' => Formula::UntilWithin(12, a, b),
        b'w' => Formula::UnlessWithin(12, a, b),
        _ => Formula::ReleaseWithin(12, a, b),
    }
}

/// The formula with which a text begins, and what stands behind it.
pub(crate) fn formula(alloc: Global, text: &[u8]) -> Result<(Formula, &[u8]), Fail>
    ensures fits { IfOk result (λ r. Fits (truth_values ∷ truth_values ∷ truth_values ∷ []) (tree_of r.0)) }
    ensures below { IfOk result (λ r. VariablesBelow 64 (tree_of r.0)) }
    ensures rest { IfOk result (λ r. length r.1.now ≤ length text.now) }
{
    match text {
        [] | [b't', ..] => Ok((Formula::True, &[])),
        [b'0', rest @ ..] => Ok((Formula::Flag(VarId(0)), rest)),
        [b'1', rest @ ..] => Ok((Formula::Flag(VarId(1)), rest)),
        [b'2', rest @ ..] => Ok((Formula::Flag(VarId(2)), rest)),
        [b'~', rest @ ..] => Ok((Formula::Same(VarId(2), Cmp::Ne, VarId(0)), rest)),
        [sign @ (b'!' | b'X' | b'F' | b'G' | b'f' | b'g'), rest @ ..] => {
            let (a, rest) = formula(alloc, rest)?;
            Ok((unary(*sign, Box::new(alloc, a)?), rest))
        }
        [sign, rest @ ..] => {
            let (a, rest) = formula(alloc, rest)?;
            let (b, rest) = formula(alloc, rest)?;
            Ok((
                binary(*sign, Box::new(alloc, a)?, Box::new(alloc, b)?),
                rest,
            ))
        }
    }
}

// Formulas, and how they are written.
const FORMS: &str = "\
0 | p
~ | r != p
!t | not true
!0 | not p
X0 | next p
F0 | eventually p
G0 | always p
f0 | eventually within 12 p
g0 | always within 12 p
&01 | p and q
|01 | p or q
>01 | p implies q
=01 | p iff q
E01 | p entails q
U01 | p until q
W01 | p unless q
R01 | p release q
u01 | p until within 12 q
w01 | p unless within 12 q
r01 | p release within 12 q
&|012 | (p or q) and r
&0|12 | p and (q or r)
|&012 | p and q or r
&&012 | p and q and r
&0&12 | p and (q and r)
||012 | p or q or r
|0|12 | p or (q or r)
>0>12 | p implies q implies r
>>012 | (p implies q) implies r
>|012 | p or q implies r
|0>12 | p or (q implies r)
==012 | (p iff q) iff r
=0=12 | p iff (q iff r)
=>012 | p implies q iff r
>0=12 | p implies (q iff r)
E=012 | p iff q entails r
E0E12 | p entails (q entails r)
&E012 | (p entails q) and r
&0U12 | p and q until r
U&012 | (p and q) until r
U0U12 | p until (q until r)
UU012 | (p until q) until r
U!0F1 | not p until eventually q
!U01 | not (p until q)
f&01 | eventually within 12 (p and q)
!X!0 | not next not p
";

// How the formula of a text is written, where its clone is the same.
fn written(rt: &impl Abort, alloc: Global, space: &Space, text: &str) -> Result<Vec<u8>, Fail>
    requires { ranges space.now ≡ truth_values ∷ truth_values ∷ truth_values ∷ [] }
{
    let (f, _) = formula(alloc, text.as_bytes())?;
    let clone = f.clone(alloc)?;
    assert!(rt; clone.is_same(&f));
    Ok(formula_text(alloc, space, &clone)?)
}

#[test]
fn forms(rt: HostRuntime) -> Result<(), Fail> {
    let space = three_truths(rt.alloc())?;
    for row in FORMS.lines() {
        let (text, expected) = halves(row)?;
        let written = written(&rt, rt.alloc(), &space, text)?;
        same(&rt, &written, expected, row);
    }
    Ok(())
}

// Formulas, the variables that they name, their levels, and whether they are state formulas.
const PARTS: &str = "\
t | {} | 1 | state
~ | {p, r} | 1 | state
U0&10 | {p, q} | 3 | temporal
g|1|11 | {q} | 4 | temporal
=~W21 | {p, q, r} | 3 | temporal
=~>21 | {p, q, r} | 3 | state
E01 | {p, q} | 2 | temporal
";

// The text of the variables that a formula names.
fn names(rt: &impl Abort, alloc: Global, f: &Formula) -> Result<Vec<u8>, Fail>
    requires { VariablesBelow 64 (tree_of f.now) }
{
    let (_, letters) = declared(alloc, "var v: {p, q, r};")?;
    let mut out = Vec::new(alloc);
    assert!(rt; letters.is_good());
    letters.put_set(&mut out, f.vars())?;
    Ok(out)
}

// The variables of the formula of a text, its levels, and whether it is a state formula.
fn parts_of(rt: &impl Abort, alloc: Global, text: &str) -> Result<(Vec<u8>, u32, bool), Fail> {
    let (f, _) = formula(alloc, text.as_bytes())?;
    let names = names(rt, alloc, &f)?;
    Ok((names, f.depth(), f.is_state()))
}

#[test]
fn parts(rt: HostRuntime) -> Result<(), Fail> {
    for row in PARTS.lines() {
        let (text, depth) = (cell(row, 0)?, number(row, 2)?);
        let (expected, kind) = (cell(row, 1)?, cell(row, 3)?);
        let (names, levels, is_state) = parts_of(&rt, rt.alloc(), text)?;
        same(&rt, &names, expected, row);
        assert!(rt; u64::from(levels) == depth, "{row}");
        assert!(rt; is_state == (kind == "state"), "{row}");
    }
    Ok(())
}

const FOUR_KINDS: &str = "\
var lit: bool;
var door: {shut, ajar, open};
var gate: {shut, ajar, open};
var level: -2..61;
";

fn comparison(sign: &str) -> Cmp {
    match sign {
        "=" => Cmp::Eq,
        "!=" => Cmp::Ne,
        "<" => Cmp::Lt,
        "<=" => Cmp::Le,
        ">" => Cmp::Gt,
        _ => Cmp::Ge,
    }
}

// Whether a number has no bit from a place on.
fn is_below(number: u64, place: u64) -> bool
    requires { place ≤ 64 }
    ensures { IsTrue result → number < 2 ^ place }
{
    place == 64 || number < 1 << place
}

// A variable compared with the value of an index, in a set of values as its number, or, for
// `same`, equal to the variable of a number.
fn atom(rt: &impl Abort, space: &Space, x: u64, sign: &str, number: u64) -> Formula
    ensures fits { Fits (ranges space.now) (tree_of result) }
{
    assert!(rt; x < 64);
    let x = x as u8;
    assert!(rt; x < space.count());
    let size = space.range_of(VarId(x)).size();
    match sign {
        "in" => {
            assert!(rt; size <= 64);
            assert!(rt; is_below(number, size));
            Formula::Among(VarId(x), Values(number))
        }
        "same" => {
            assert!(rt; number < u64::from(space.count()));
            Formula::Same(VarId(x), Cmp::Eq, VarId(number as u8))
        }
        _ => {
            assert!(rt; number < 64);
            let value = number as u8;
            assert!(rt; u64::from(value) < size);
            Formula::Is(VarId(x), comparison(sign), value)
        }
    }
}

// A variable's number, what it is compared by and with, and how that is written.
const ATOMS: &str = "\
0 | = | 0 | lit = false
0 | != | 1 | lit != true
1 | = | 2 | door = open
2 | < | 1 | gate < ajar
3 | <= | 0 | level <= -2
3 | > | 2 | level > 0
3 | >= | 63 | level >= 61
3 | in | 0 | level in {}
3 | in | 1 | level in {-2}
3 | in | 102 | level in {-1, 0, 3, 4}
1 | in | 5 | door in {shut, open}
1 | same | 2 | door = gate
";

// How the formula of a row is written.
fn atom_text(rt: &impl Abort, alloc: Global, space: &Space, row: &str) -> Result<Vec<u8>, Fail> {
    let (x, sign, value) = (number(row, 0)?, cell(row, 1)?, number(row, 2)?);
    let f = atom(rt, space, x, sign, value);
    Ok(formula_text(alloc, space, &f)?)
}

#[test]
fn atoms(rt: HostRuntime) -> Result<(), Fail> {
    let space = space_of(rt.alloc(), FOUR_KINDS)?;
    for row in ATOMS.lines() {
        let expected = cell(row, 3)?;
        let written = atom_text(&rt, rt.alloc(), &space, row)?;
        same(&rt, &written, expected, row);
    }
    Ok(())
}

// The states of a prefix and of a loop, and what is refused, in a space of one variable.
const LASSOS: &str = "\
none | none | EmptyLoop
.00 | none | EmptyLoop
.00 | .0.0 | StateOutOfSpace
none | .00.00 | StateOutOfSpace
none | .0.0 | a lasso
";

// What is refused of a prefix and a loop.
fn refusal(
    alloc: Global,
    space: &Space,
    prefix: &str,
    cycle: &str,
) -> Result<Option<LassoRefusal>, Fail> {
    let prefix = states(alloc, prefix)?;
    let cycle = states(alloc, cycle)?;
    Ok(Lasso::new(space, prefix, cycle).err())
}

#[test]
fn lassos(rt: HostRuntime) -> Result<(), Fail> {
    let space = space_of(rt.alloc(), "var x: 0..4;")?;
    for row in LASSOS.lines() {
        let (prefix, rest) = halves(row)?;
        let (cycle, expected) = halves(rest)?;
        let expected = match expected {
            "EmptyLoop" => Some(LassoRefusal::EmptyLoop),
            "StateOutOfSpace" => Some(LassoRefusal::StateOutOfSpace),
            _ => None,
        };
        let refused = refusal(rt.alloc(), &space, prefix, cycle)?;
        assert!(rt; refused == expected, "{row}");
    }
    Ok(())
}

// Positions, and the value there, of the prefix `.0.1` and the loop `.2.3.4`.
const POSITIONS: &str = "\
0 | 0
1 | 1
2 | 2
4 | 4
5 | 2
9 | 3
18446744073709551615 | 3
";

#[test]
fn positions(rt: HostRuntime) -> Result<(), Fail> {
    let space = space_of(rt.alloc(), "var x: 0..4;")?;
    let prefix = states(rt.alloc(), ".0.1")?;
    let cycle = states(rt.alloc(), ".2.3.4")?;
    let lasso = Lasso::new(&space, prefix, cycle)?;
    for row in POSITIONS.lines() {
        let (position, value) = (number(row, 0)?, number(row, 1)?);
        let found = lasso.state_at(position).values.first().copied();
        assert!(rt; found.map(u64::from) == Some(value), "{row}");
    }
    Ok(())
}
