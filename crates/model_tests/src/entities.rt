//! Statements of version 2 that make no model: entity types, attributes and quantifiers, with the kind, the statement and the name of the
//! refusal, by hand from the rules of names and values.

use crate::refusals::come_to;
use std::test::Fail;

// Two types, three attributes and a name of some other kinds, in 11 statements, with 8 variables.
const TYPES: &str =
    "kaos 2; entity T: {a, b}; entity U: {c, d}; attr f of T: bool; attr n of T: 0..3; attr k of U: bool; \
    var v: bool; var w: 0..3; goal P: v; goal Q: v; agent A; ";

const TYPES_AND_ATTRIBUTES: &str = "\
# A name is declared once: types, attributes and the variables of attributes are names like others.
a goal's, of a type | entity P: {x, y}; | refused: statement 12: DuplicateName P
a type's, of a type | entity T: {x, y}; | refused: statement 12: DuplicateName T
an attribute's, of a type | entity f: {x, y}; | refused: statement 12: DuplicateName f
a joined variable's, of a type | entity f_a: {x, y}; | refused: statement 12: DuplicateName f_a
a type's, of a goal | goal T: v; | refused: statement 12: DuplicateName T
an attribute's, of a variable | var f: bool; | refused: statement 12: DuplicateName f
a joined variable's, of a variable | var f_a: bool; | refused: statement 12: DuplicateName f_a
a joined variable's, of a goal | goal n_b: v; | refused: statement 12: DuplicateName n_b
an attribute's, of an attribute | attr f of U: bool; | refused: statement 12: DuplicateName f
a joined variable's, of an attribute | attr f_b of U: bool; | refused: statement 12: DuplicateName f_b
members stand apart | var a: bool; var a: bool; | refused: statement 13: DuplicateName a
# A member stands once.
a member twice | entity E: {x, y, x}; | refused: statement 12: DuplicateName x
a member of another type | entity E: {a, b}; entity E: {a, b}; | refused: statement 13: DuplicateName E
the name, and a member twice | entity P: {x, x}; | refused: statement 12: DuplicateName P
a member twice, of ten | entity E: {x, x, [7 y#, ]y7}; | refused: statement 12: DuplicateName x
# The type of an attribute.
an unknown type | attr g of E: bool; | refused: statement 12: UnknownName E
a member as a type | attr g of a: bool; | refused: statement 12: UnknownName a
a variable as a type | attr g of v: bool; | refused: statement 12: WrongKind v
an attribute as a type | attr g of f: bool; | refused: statement 12: WrongKind f
the attribute as a type | attr g of g: bool; | refused: statement 12: UnknownName g
the name, and the type | attr f of E: bool; | refused: statement 12: DuplicateName f
the type, and a value twice | attr g of E: {x, x}; | refused: statement 12: UnknownName E
a value twice | attr g of T: {x, y, x}; | refused: statement 12: DuplicateName x
# A type has 2 to 8 members, and an attribute 1 to 64 values.
one member | entity E: {x}; | refused: statement 12: BadRange E
nine members | entity E: {[8 x#, ]x8}; | refused: statement 12: BadRange E
eight members | entity E: {[7 x#, ]x7}; entity E: {x}; | refused: statement 13: DuplicateName E
65 numbers | attr g of T: 0..64; | refused: statement 12: BadRange g
upside down | attr g of T: 3..0; | refused: statement 12: BadRange g
65 names | attr g of T: {[64 x#, ]x64}; | refused: statement 12: BadRange g
# A joined name has at most 40 bytes.
a name of 39 bytes | attr [39 g] of T: bool; | refused: statement 12: LongName ggggggggggggggggggggggggggggggggggggggg
a name of 38 bytes | attr [38 g] of T: bool; attr T of T: bool; | refused: statement 13: DuplicateName T
a longer second member | entity E: {x, yy}; attr [38 g] of E: bool; | refused: statement 13: LongName gggggggggggggggggggggggggggggggggggggg
a range, and a long name | attr [39 g] of T: 0..64; | refused: statement 12: BadRange ggggggggggggggggggggggggggggggggggggggg
a long name, and a declared one | entity E: {x, yy}; var [38 g]_x: bool; attr [38 g] of E: bool; | refused: statement 14: LongName gggggggggggggggggggggggggggggggggggggg
# A joined name is new, whatever has it.
the second member's, a variable's | var g_b: bool; attr g of T: bool; | refused: statement 13: DuplicateName g_b
both members', of variables | var g_b: bool; var g_a: bool; attr g of T: bool; | refused: statement 14: DuplicateName g_a
a goal's | goal g_a: v; attr g of T: bool; | refused: statement 13: DuplicateName g_a
a type's | entity g_a: {x, y}; attr g of T: bool; | refused: statement 13: DuplicateName g_a
an attribute's | attr g_a of U: bool; attr g of T: bool; | refused: statement 13: DuplicateName g_a
an agent's, behind a variable's | var g_b: bool; agent g_a; attr g of T: bool; | refused: statement 14: DuplicateName g_a
a joined variable's | entity E: {b_x, y}; entity F: {x, y}; attr g of E: bool; attr g_b of F: bool; | refused: statement 15: DuplicateName g_b_x
a range, and a declared name | var g_a: bool; attr g of T: 0..64; | refused: statement 13: BadRange g
# There are 64 variables.
65 with an attribute | [55 var x#: bool;]attr g of T: bool; | refused: statement 67: TooManyVars g
64 with an attribute, and one more | [54 var x#: bool;]attr g of T: bool; var y: bool; | refused: statement 67: TooManyVars y
a range, and 65 | [55 var x#: bool;]attr g of T: 0..64; | refused: statement 67: BadRange g
a declared name, and 65 | [54 var x#: bool;]var g_b: bool; attr g of T: bool; | refused: statement 67: DuplicateName g_b";

#[test]
fn types_and_attributes(rt: HostRuntime) -> Result<(), Fail> {
    come_to(&rt, rt.alloc(), TYPES, TYPES_AND_ATTRIBUTES)
}

const MEMBERS: &str = "\
# Types, members and attributes are no variables.
a type | goal G: T; | refused: statement 12: WrongKind T
a member | goal G: a; | refused: statement 12: UnknownName a
an attribute | goal G: f; | refused: statement 12: WrongKind f
an attribute compared | goal G: n = 2; | refused: statement 12: WrongKind n
an attribute before values | goal G: n in {2}; | refused: statement 12: WrongKind n
an attribute behind a comparison | goal G: w = n; | refused: statement 12: WrongKind n
an attribute behind a comparison of its own | goal G: n(a) = n; | refused: statement 12: WrongKind n
a type behind a comparison | goal G: w = T; | refused: statement 12: WrongKind T
a member behind a comparison | goal G: w = a; | refused: statement 12: UnknownName a
an attribute in a state | trace X: loop {f = true}; | refused: statement 12: WrongKind f
a member in a state | trace X: loop {a = true}; | refused: statement 12: UnknownName a
a type as an agent | assign P to T; | refused: statement 12: WrongKind T
# Before the brackets stands an attribute.
an unknown name | goal G: z(a); | refused: statement 12: UnknownName z
a variable | goal G: v(a); | refused: statement 12: WrongKind v
a joined variable | goal G: f_a(a); | refused: statement 12: WrongKind f_a
a type's name | goal G: T(a); | refused: statement 12: WrongKind T
a goal | goal G: P(a); | refused: statement 12: WrongKind P
unknown, and no member | goal G: z(y); | refused: statement 12: UnknownName z
a variable, and no member | goal G: v(z); | refused: statement 12: WrongKind v
unknown, behind a comparison | goal G: w = z(a); | refused: statement 12: UnknownName z
a variable, behind a comparison | goal G: w = v(a); | refused: statement 12: WrongKind v
# In the brackets stands a member of its type.
no member | goal G: f(z); | refused: statement 12: UnknownName z
a member of the other type | goal G: f(c); | refused: statement 12: UnknownName c
a variable, which is no member | goal G: f(v); | refused: statement 12: UnknownName v
the type itself | goal G: f(T); | refused: statement 12: UnknownName T
no member, compared | goal G: n(z) = 4; | refused: statement 12: UnknownName z
no member, before values | goal G: n(z) in {4}; | refused: statement 12: UnknownName z
no member, behind a comparison | goal G: w = n(c); | refused: statement 12: UnknownName c
no member, on both sides | goal G: n(z) = n(y); | refused: statement 12: UnknownName z
# Values are of the attribute's range.
a number alone | goal G: n(a); | refused: statement 12: BadValue n
a number alone, of no member | goal G: n(z); | refused: statement 12: UnknownName z
over the range | goal G: n(a) = 4; | refused: statement 12: BadValue n
a truth value for a number | goal G: n(b) = true; | refused: statement 12: BadValue n
a number for a truth value | goal G: f(b) != 1; | refused: statement 12: BadValue f
a number of a set | goal G: n(a) in {1, 4}; | refused: statement 12: BadValue n
a name of a set | goal G: n(a) in {w}; | refused: statement 12: BadValue n
a variable of another range | goal G: n(a) = v; | refused: statement 12: BadValue n
an attribute of another range | goal G: n(a) = f(a); | refused: statement 12: BadValue n
an attribute of another range, of no member | goal G: n(a) = f(c); | refused: statement 12: UnknownName c
an attribute behind a variable | goal G: w = f(a); | refused: statement 12: BadValue w
an unknown name behind it | goal G: n(a) = z; | refused: statement 12: UnknownName z
a goal behind it | goal G: n(a) = P; | refused: statement 12: WrongKind P
the right range | goal G: n(a) = w and w = n(b) and n(a) <= n(b) and f(a) = v; goal G: v; | refused: statement 13: DuplicateName G";

#[test]
fn members(rt: HostRuntime) -> Result<(), Fail> {
    come_to(&rt, rt.alloc(), TYPES, MEMBERS)
}

const BOUND_NAMES: &str = "\
# A bound name is new, and behind it stands a type.
a variable's | goal G: all v: T (f(v)); | refused: statement 12: DuplicateName v
a goal's | goal G: some P: T (true); | refused: statement 12: DuplicateName P
a type's | goal G: all T: T (true); | refused: statement 12: DuplicateName T
an attribute's | goal G: all f: T (true); | refused: statement 12: DuplicateName f
a joined variable's | goal G: all f_a: T (true); | refused: statement 12: DuplicateName f_a
bound further out | goal G: all x: T (some x: U (k(x))); | refused: statement 12: DuplicateName x
bound two levels out | goal G: all x: T (all y: T (next some x: T (true))); | refused: statement 12: DuplicateName x
a variable's, of an unknown type | goal G: all v: E (true); | refused: statement 12: DuplicateName v
an unknown type | goal G: all x: E (f(x)); | refused: statement 12: UnknownName E
an unknown type, and an unknown name | goal G: some x: E (z); | refused: statement 12: UnknownName E
a member as a type | goal G: all x: a (true); | refused: statement 12: UnknownName a
a variable as a type | goal G: all x: v (true); | refused: statement 12: WrongKind v
an attribute as a type | goal G: all x: f (true); | refused: statement 12: WrongKind f
a bound name as a type | goal G: all x: T (all y: x (true)); | refused: statement 12: UnknownName x
# It stands in the brackets of an attribute, and nowhere else.
alone | goal G: all x: T (x); | refused: statement 12: UnknownName x
compared | goal G: all x: T (x = true); | refused: statement 12: UnknownName x
before values | goal G: all x: T (x in {1}); | refused: statement 12: UnknownName x
behind a comparison | goal G: all x: T (w = x); | refused: statement 12: UnknownName x
behind a comparison of an attribute | goal G: all x: T (n(x) = x); | refused: statement 12: UnknownName x
as the attribute | goal G: all x: T (x(a)); | refused: statement 12: UnknownName x
as the attribute of itself | goal G: all x: T (x(x)); | refused: statement 12: UnknownName x
behind its quantifier | goal G: (all x: T (f(x))) and f(x); | refused: statement 12: UnknownName x
# Its type is the attribute's.
of the other type | goal G: all x: U (f(x)); | refused: statement 12: WrongKind x
of the other type, further in | goal G: all x: T (some y: U (k(x))); | refused: statement 12: WrongKind x
of the other type, behind a comparison | goal G: all x: U (w = n(x)); | refused: statement 12: WrongKind x
of the other type, and a number alone | goal G: all x: U (n(x)); | refused: statement 12: WrongKind x
named as a member | goal G: all a: U (f(a)); | refused: statement 12: WrongKind a
a number alone | goal G: some x: T (n(x)); | refused: statement 12: BadValue n
over the range | goal G: some x: T (n(x) = 4); | refused: statement 12: BadValue n
an attribute of another range | goal G: some x: T (n(x) = f(x)); | refused: statement 12: BadValue n
# It is bound inside its quantifier alone.
the statement's own name | goal x: all x: T (f(x)); goal x: v; | refused: statement 13: DuplicateName x
free behind it | goal G: all x: T (f(x)); var x: bool; var x: bool; | refused: statement 14: DuplicateName x
declared behind it, and bound again | goal G: all x: T (f(x)); var x: bool; goal H: all x: T (f(x)); | refused: statement 14: DuplicateName x
bound twice, one beside the other | goal G: (all x: T (f(x))) and some x: U (k(x)); goal G: v; | refused: statement 13: DuplicateName G
a member's name, bound to its type | goal G: all b: T (f(b) and f(a)); goal G: v; | refused: statement 13: DuplicateName G
a value of its name | var y: {x, z}; goal G: all x: T (y = x); goal G: v; | refused: statement 14: DuplicateName G";

#[test]
fn bound_names(rt: HostRuntime) -> Result<(), Fail> {
    come_to(&rt, rt.alloc(), TYPES, BOUND_NAMES)
}

const AGENTS: &str = "\
# An attribute stands for all its variables, in the order of the members.
an attribute, and a variable of it | agent B monitors f, f_a; | refused: statement 12: DuplicateName f_a
a variable of it, and the attribute | agent B monitors f_b, f; | refused: statement 12: DuplicateName f
an attribute twice | agent B monitors f, n, f; | refused: statement 12: DuplicateName f
controlled, with a variable of it | agent B controls n, w, n_b; | refused: statement 12: DuplicateName n_b
in two lists | agent B monitors f, f controls n; | refused: statement 12: DuplicateName f
monitored and controlled | agent B monitors f_a controls f; agent B; | refused: statement 13: DuplicateName B
a type | agent B monitors T; | refused: statement 12: WrongKind T
a member | agent B controls a; | refused: statement 12: UnknownName a
# A variable is controlled by one agent, and is named where an attribute stands for it.
a variable, and then the attribute | agent B controls f_b; agent C controls f; | refused: statement 13: TwoControllers f_b
the attribute, and then a variable | agent B controls f; agent C controls f_b; | refused: statement 13: TwoControllers f_b
the attribute twice | agent B controls f; agent C controls f; | refused: statement 13: TwoControllers f_a
both variables | agent B controls f_b, f_a; agent C controls f; | refused: statement 13: TwoControllers f_a
the first of the list | agent B controls v, f_b; agent C controls f, v; | refused: statement 13: TwoControllers f_b
behind another | agent B controls v, f_b; agent C controls n, v, f; | refused: statement 13: TwoControllers v
and an unknown name | agent B controls f; agent C controls f, z; | refused: statement 13: UnknownName z
and twice | agent B controls f_b; agent C controls f, f_b; | refused: statement 13: DuplicateName f_b
two attributes | agent B controls f; agent C controls n; agent B; | refused: statement 14: DuplicateName B";

#[test]
fn agents(rt: HostRuntime) -> Result<(), Fail> {
    come_to(&rt, rt.alloc(), TYPES, AGENTS)
}

// A type of 8 members, in 3 statements: four quantifiers over an atom make 8,191 nodes, and three over 7 nodes 4,095.
const EIGHT: &str = "kaos 2; entity T: {a, b, c, d, e, g, h, i}; attr f of T: bool; ";

const WIDE_FORMULAS: &str = "\
a property | domain D: all w: T (all x: T (all y: T (all z: T (f(z))))); | refused: statement 4: TooWide D
a goal | goal G: some w: T (all x: T (some y: T (all z: T (f(z))))); | refused: statement 4: TooWide G
an obstacle | obstacle O: not all w: T (all x: T (all y: T (all z: T (f(z))))); | refused: statement 4: TooWide O
the cause of a rule | rule R: all w: T (all x: T (all y: T (all z: T (f(z))))) entails true; | refused: statement 4: TooWide R
the effect of a rule | rule R: true entails all w: T (all x: T (all y: T (all z: T (f(z))))); | refused: statement 4: TooWide R
a boundary | goal G: f(a); goal H: f(b); conflict K: G, H boundary all w: T (all x: T (all y: T (all z: T (f(z))))); | refused: statement 6: TooWide K
a condition before | agent A; operation S by A dompre all w: T (all x: T (all y: T (all z: T (f(z))))) dompost true; | refused: statement 5: TooWide S
a condition behind | agent A; operation S by A dompre true dompost all w: T (all x: T (all y: T (all z: T (f(z))))); | refused: statement 5: TooWide S
a requirement | agent A; operation S by A dompre true dompost true; require R on S trig all w: T (all x: T (all y: T (all z: T (f(z))))); | refused: statement 6: TooWide R
4097 nodes | goal G: not not all x: T (all y: T (all z: T (f(x) and f(y) and f(z) and f(a)))); | refused: statement 4: TooWide G
4096 nodes | goal G: not all x: T (all y: T (all z: T (f(x) and f(y) and f(z) and f(a)))); goal G: true; | refused: statement 5: DuplicateName G
4095 nodes on each side of a rule | rule R: all x: T (all y: T (all z: T (f(x) and f(y) and f(z) and f(a)))) entails some x: T (all y: T (all z: T (f(x) or f(y) or f(z) or f(a)))); goal R: true; | refused: statement 5: DuplicateName R
# Behind the names, and before what else a whole statement has.
and an unknown name | domain D: all w: T (all x: T (all y: T (all z: T (f(z))))) and v; | refused: statement 4: UnknownName v
and a declared name | goal G: true; domain G: all w: T (all x: T (all y: T (all z: T (f(z))))); | refused: statement 5: DuplicateName G
and two states | agent A; operation S by A dompre next f(a) dompost all w: T (all x: T (all y: T (all z: T (f(z))))); | refused: statement 5: TooWide S
two states | agent A; operation S by A dompre all x: T (next f(x)) dompost true; | refused: statement 5: NotState S
and two states, required | agent A; operation S by A dompre true dompost true; require R on S pre next all w: T (all x: T (all y: T (all z: T (f(z))))); | refused: statement 6: TooWide R
one state | agent A; operation S by A dompre all x: T (f(x)) dompost some x: T (f(x)); goal S: true; | refused: statement 6: DuplicateName S
# A demand is large by its plain formulas: 1,001 levels and more, and 601 distinct subformulas for each member.
levels | domain D: all x: T ([5 always within 100 ]f(x)); | refused: statement 4: TooLarge D
subformulas | goal G: f(a); goal H: all x: T ([3 always within 100 ]f(x)); refine G by H; | refused: statement 6: TooLarge G
subformulas of two members | goal G: f(a); goal H: [3 always within 100 ]f(a) and [3 always within 100 ]f(b); refine G by H; | accepted";

#[test]
fn wide_formulas(rt: HostRuntime) -> Result<(), Fail> {
    come_to(&rt, rt.alloc(), EIGHT, WIDE_FORMULAS)
}

const WHOLE_TEXTS: &str = "\
a type of one member | kaos 2; entity T: {a}; | refused: statement 2: BadRange T
a joined name that is declared | kaos 2; entity T: {a, b}; var f_a: bool; attr f of T: bool; | refused: statement 4: DuplicateName f_a
four quantifiers | kaos 2; entity T: {a, b, c, d, e, g, h, i}; attr f of T: bool; domain D: all w: T (all x: T (all y: T (all z: T (f(z))))); | refused: statement 4: TooWide D
an attribute of no type | kaos 2; attr f of E: bool; | refused: statement 2: UnknownName E
an attribute behind an unknown name | kaos 2; goal G: b; attr f of E: bool; | refused: statement 2: UnknownName b
an attribute that is not declared | kaos 2; var a: bool; goal G: always f(e); | refused: statement 3: UnknownName f
all of no type | kaos 2; goal G: all x: E (f(x)); | refused: statement 2: UnknownName E
some of no type | kaos 2; goal G: some x: E (true); | refused: statement 2: UnknownName E
a type behind its attribute | kaos 2; attr f of E: bool; entity E: {a, b}; | refused: statement 2: UnknownName E
a link with a pattern | kaos 2; entity T: {a, b}; attr f of T: bool; goal G: f(a); goal H: f(b); refine G by H using split; | accepted";

#[test]
fn whole_texts_of_version_2(rt: HostRuntime) -> Result<(), Fail> {
    come_to(&rt, rt.alloc(), "", WHOLE_TEXTS)
}
