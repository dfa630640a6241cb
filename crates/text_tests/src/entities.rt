//! Entity types and their attributes, the plain formulas of quantifiers over them, and how large
//! these are. A formula of a table is in prefix notation: each digit is the variable of that number.

ghost use Rattle.std.specs.Prelude.{◌≡◌, ◌≢◌, ◌<◌, ◌≤◌, ◌+◌, ℕ, List, length, AllPairs, OnOk, IfOk};
ghost use Rattle.entity_types.specs.Fits.{Fits};
ghost use Rattle.entity_types.specs.Rows.{Rows};
ghost use Rattle.entity_types.specs.View.{type_names, attribute_names, rows_of, written_tree};

use crate::cells::{cell, halves, same};
use crate::formulas::formula;
use crate::spaces::{declared, space_of};
use entity_types::{
    Atom, Entities, EntityRefusal, Joining, Opening, Term, Written, ground, ground_size,
};
use state_space::{Name, Range, Space, VarId};
use std::alloc::Global;
use std::process::Abort;
use std::test::Fail;

// The name and the members of a type, written as a variable and its values.
fn members(rt: &impl Abort, alloc: Global, text: &str) -> Result<(Name, Vec<Name>), Fail>
    ensures distinct { IfOk result (λ r. AllPairs (λ a b. a ≢ b) r.1.items) }
{
    let (name, range) = declared(alloc, text)?;
    assert!(rt; range.is_good());
    match range {
        Range::Names(members) => Ok((name, members)),
        _ => Err("no members")?,
    }
}

// Whether a type is added, and its number.
fn added(rt: &impl Abort, alloc: Global, text: &str) -> Result<&'static str, Fail> {
    let (name, members) = members(rt, alloc, text)?;
    let mut entities = Entities::new(alloc);
    Ok(match entities.add_entity(name, members) {
        Ok(0) => "added",
        Err(EntityRefusal::BadRange) => "BadRange",
        _ => "another answer",
    })
}

// A type, and what comes of it.
const TYPES: &str = "\
var T: {a}; | BadRange
var T: {a, b}; | added
var T: {a, b, c, d, e, f, g, h}; | added
var T: {a, b, c, d, e, f, g, h, i}; | BadRange
";

#[test]
fn types(rt: HostRuntime) -> Result<(), Fail> {
    for row in TYPES.lines() {
        let (text, expected) = halves(row)?;
        let answer = added(&rt, rt.alloc(), text)?;
        same(&rt, answer.as_bytes(), expected, row);
    }
    Ok(())
}

// Adds a type.
fn add(rt: &impl Abort, alloc: Global, entities: &mut Entities, text: &str) -> Result<u16, Fail>
    requires few { length (type_names entities.old) < 2000 }
    ensures more { OnOk result (length (type_names entities.new) ≡ length (type_names entities.old) + 1) }
{
    let (name, members) = members(rt, alloc, text)?;
    let id = entities.add_entity(name, members)?;
    Ok(id)
}

// A type of two members.
fn one_type(rt: &impl Abort, alloc: Global) -> Result<Entities, Fail>
    ensures one { IfOk result (λ e. length (rows_of e).counts ≡ 1) }
    ensures none { IfOk result (λ e. length (attribute_names e) ≡ 0) }
{
    let mut entities = Entities::new(alloc);
    let (name, members) = members(rt, alloc, "var T: {a, b};")?;
    entities.add_entity(name, members)?;
    Ok(entities)
}

// What comes of an attribute of such a type, written as a variable.
fn attributed(
    rt: &impl Abort,
    alloc: Global,
    space: &mut Space,
    text: &str,
) -> Result<&'static str, Fail> {
    let mut entities = one_type(rt, alloc)?;
    let (name, range) = declared(alloc, text)?;
    Ok(match entities.add_attr(space, name, 0, range) {
        Ok(0) => "added",
        Err(EntityRefusal::BadRange) => "BadRange",
        Err(EntityRefusal::LongName) => "LongName",
        Err(EntityRefusal::DuplicateName(0)) => "DuplicateName of a",
        Err(EntityRefusal::DuplicateName(1)) => "DuplicateName of b",
        Err(EntityRefusal::TooManyVars) => "TooManyVars",
        _ => "another answer",
    })
}

// An attribute of a type of members a and b, a variable that is there, and what comes of it.
const ATTRIBUTES: &str = "\
var f: bool; | var f: bool; | added
var f: 0..64; | var f_a: bool; | BadRange
var a23456789012345678901234567890123456789: 0..64; | var f: bool; | BadRange
var a2345678901234567890123456789012345678: bool; | var f: bool; | added
var a23456789012345678901234567890123456789: bool; | var f: bool; | LongName
var f: bool; | var f_a: bool; | DuplicateName of a
var f: bool; | var f_b: bool; | DuplicateName of b
";

#[test]
fn attributes(rt: HostRuntime) -> Result<(), Fail> {
    for row in ATTRIBUTES.lines() {
        let mut space = space_of(rt.alloc(), cell(row, 1)?)?;
        let answer = attributed(&rt, rt.alloc(), &mut space, cell(row, 0)?)?;
        same(&rt, answer.as_bytes(), cell(row, 2)?, row);
    }
    Ok(())
}

// Adds truth variables of other names up to a count.
fn fill(alloc: Global, space: &mut Space, count: u8) -> Result<(), Fail> {
    for index in space.count()..count {
        let name = Name::new(alloc, &[b'v', b'a' + index / 8, b'a' + index % 8])?;
        space.add(name, Range::Bool)?;
    }
    Ok(())
}

// How many variables there are, one of which is there, and what comes of an attribute `f`.
const FULL_SPACES: &str = "\
62 | var x: bool; | added
63 | var x: bool; | TooManyVars
64 | var x: bool; | TooManyVars
64 | var f_b: bool; | DuplicateName of b
";

#[test]
fn attributes_in_full_spaces(rt: HostRuntime) -> Result<(), Fail> {
    for row in FULL_SPACES.lines() {
        let mut space = space_of(rt.alloc(), cell(row, 1)?)?;
        fill(rt.alloc(), &mut space, cell(row, 0)?.parse::<u8>()?)?;
        let answer = attributed(&rt, rt.alloc(), &mut space, "var f: bool;")?;
        same(&rt, answer.as_bytes(), cell(row, 2)?, row);
    }
    Ok(())
}

#[test]
fn variables_of_attributes(rt: HostRuntime) -> Result<(), Fail> {
    let mut entities = one_type(&rt, rt.alloc())?;
    let mut space = Space::new(rt.alloc());
    let f = entities.add_attr(&mut space, Name::new(rt.alloc(), b"f")?, 0, Range::Bool)?;
    let g = entities.add_attr(&mut space, Name::new(rt.alloc(), b"g")?, 0, Range::Bool)?;
    assert!(rt; f == 0 && g == 1 && space.count() == 4);
    assert!(rt; space.find(b"f_a") == Some(VarId(0)) && space.find(b"f_b") == Some(VarId(1)));
    assert!(rt; space.find(b"g_a") == Some(VarId(2)) && space.find(b"g_b") == Some(VarId(3)));
    Ok(())
}

// Types of three and of eight members.
fn two_types(rt: &impl Abort, alloc: Global) -> Result<Entities, Fail>
    ensures two { IfOk result (λ e. length (rows_of e).counts ≡ 2) }
{
    let mut entities = Entities::new(alloc);
    let first = add(rt, alloc, &mut entities, "var T: {a, b, c};")?;
    let second = add(rt, alloc, &mut entities, "var U: {a, b, c, d, e, f, g, h};")?;
    assert!(rt; first == 0 && second == 1);
    Ok(entities)
}

// The formula of a quantifier: `A` and `S` are over the first type, `B` over the second.
fn quantified(alloc: Global, sign: u8, a: Written) -> Result<Written, Fail>
    requires fits { (rows : Rows) (types : List ℕ) → length rows.counts ≡ 2 → Fits rows types (written_tree a) }
    ensures fits { IfOk result (λ f. (rows : Rows) (types : List ℕ) → length rows.counts ≡ 2 → Fits rows types (written_tree f)) }
{
    let a = Box::new(alloc, a)?;
    Ok(match sign {
        b'A' => Written::All(0, a),
        b'B' => Written::All(1, a),
        _ => Written::Exists(0, a),
    })
}

fn opened(alloc: Global, a: Written) -> Result<Written, Fail>
    requires fits { (rows : Rows) (types : List ℕ) → length rows.counts ≡ 2 → Fits rows types (written_tree a) }
    ensures fits { IfOk result (λ f. (rows : Rows) (types : List ℕ) → length rows.counts ≡ 2 → Fits rows types (written_tree f)) }
{
    Ok(Written::Opened(Opening::Not, Box::new(alloc, a)?))
}

fn joined(alloc: Global, a: Written, b: Written) -> Result<Written, Fail>
    requires first { (rows : Rows) (types : List ℕ) → length rows.counts ≡ 2 → Fits rows types (written_tree a) }
    requires second { (rows : Rows) (types : List ℕ) → length rows.counts ≡ 2 → Fits rows types (written_tree b) }
    ensures fits { IfOk result (λ f. (rows : Rows) (types : List ℕ) → length rows.counts ≡ 2 → Fits rows types (written_tree f)) }
{
    Ok(Written::Joined(Joining::And, Box::new(alloc, (a, b))?))
}

// The formula with which a text begins, and what stands behind it.
fn written(alloc: Global, text: &[u8]) -> Result<(Written, &[u8]), Fail>
    ensures fits { IfOk result (λ r. (rows : Rows) (types : List ℕ) → length rows.counts ≡ 2 → Fits rows types (written_tree r.0)) }
    ensures rest { IfOk result (λ r. length r.1.now ≤ length text.now) }
{
    match text {
        [] => Ok((Written::Atom(Atom::True), &[])),
        [b'0', rest @ ..] => Ok((Written::Atom(Atom::Flag(Term::Var(VarId(0)))), rest)),
        [b'1', rest @ ..] => Ok((Written::Atom(Atom::Flag(Term::Var(VarId(1)))), rest)),
        [b'!', rest @ ..] => {
            let (a, rest) = written(alloc, rest)?;
            Ok((opened(alloc, a)?, rest))
        }
        [b'&', rest @ ..] => {
            let (a, rest) = written(alloc, rest)?;
            let (b, rest) = written(alloc, rest)?;
            Ok((joined(alloc, a, b)?, rest))
        }
        [sign, rest @ ..] => {
            let (a, rest) = written(alloc, rest)?;
            Ok((quantified(alloc, *sign, a)?, rest))
        }
    }
}

// Formulas, the plain ones that they say, and how many nodes these have.
const FORMULAS: &str = "\
S0 | ||000 | 5
A&0!1 | &&&0!1&0!1&0!1 | 14
AS0 | &&||000||000||000 | 17
!A0 | !&&000 | 6
&A0S1 | &&&000||111 | 11
B0 | &&&&&&&00000000 | 15
";

// Whether the plain formula of a written one is the formula of a text.
fn says(alloc: Global, entities: &Entities, f: &Written, text: &str) -> Result<bool, Fail>
    requires two { length (rows_of entities.now).counts ≡ 2 }
    requires fits { (rows : Rows) (types : List ℕ) → length rows.counts ≡ 2 → Fits rows types (written_tree f.now) }
{
    let (expected, _) = formula(alloc, text.as_bytes())?;
    let plain = ground(alloc, entities, f)?;
    Ok(plain.is_same(&expected))
}

// Whether the formula of a text says what a second text does, and the size of the plain one.
fn grounded(
    alloc: Global,
    entities: &Entities,
    text: &str,
    plain: &str,
) -> Result<(bool, u64), Fail>
    requires { length (rows_of entities.now).counts ≡ 2 }
{
    let (f, _) = written(alloc, text.as_bytes())?;
    let size = ground_size(entities, &f);
    let says = says(alloc, entities, &f, plain)?;
    Ok((says, size))
}

#[test]
fn quantifiers(rt: HostRuntime) -> Result<(), Fail> {
    let entities = two_types(&rt, rt.alloc())?;
    assert!(rt; entities.member_count(0) == 3 && entities.member_count(1) == 8);
    for row in FORMULAS.lines() {
        let (text, rest) = halves(row)?;
        let (plain, size) = halves(rest)?;
        let answer = grounded(rt.alloc(), &entities, text, plain)?;
        assert!(rt; answer == (true, size.parse::<u64>()?), "{row}");
    }
    let (large, _) = written(rt.alloc(), b"BBBB0".as_slice())?;
    assert!(rt; ground_size(&entities, &large) == 4097);
    Ok(())
}
