//! The kids of a node: made, or told from any other node. The plain form is `kids` of
//! specs/Nodes.antt, the rule over trees, and each clause says that a kid is equal to the one
//! there. A kid is written into a node that is there already, so that making it takes memory only
//! where that has too little; to tell takes none. Measured as part of exploring: 169,339 nodes in
//! 0.20 s (docs/ARCHITECTURE.md).

ghost use Rattle.std.specs.Prelude.{◌≡◌, ℕ, ◌<◌, ◌↔◌, IsTrue, List, [], ◌∷◌, length, map, slice_get, Some, OnOk};
ghost use Rattle.formula_table.specs.Tables.{closure_in};
ghost use Rattle.tableau_rules.specs.Sets.{with_option};
ghost use Rattle.tableau_rules.specs.Nodes.{stepped, kids};
ghost use Rattle.tableau_rules.specs.NodeView.{node_of, AreNumbersBelow};
ghost use Rattle.tableau_rules.specs.Turns.{sets_of, effects_of};
ghost use Rattle.tableau_rules.specs.NodeTurns.{IsTurnOf};
ghost use Rattle.tableau_rules.specs.KidsView.{first_of, second_of, later_of, met_by, set_by, kid_by};

use crate::bits::Bits;
use crate::effect::{Effect, Turn};
use crate::formulas::Formulas;
use crate::node::{Node, is_empty, turn};
use formula_table::{FormulaId, Table};
use source_sink::Memory;
use state_space::Values;

// The first formula that an effect adds to those that are to be true now.
fn first_of(effect: Effect) -> Option<u16>
    ensures first { result ≡ first_of effect }
{
    match effect {
        Effect::Adds(a) | Effect::AddsBoth(a, _) | Effect::Waits(a, _) => Some(a.0),
        _ => None,
    }
}

// The second formula that an effect adds to those that are to be true now.
fn second_of(effect: Effect) -> Option<u16>
    ensures second { result ≡ second_of effect }
{
    match effect {
        Effect::AddsBoth(_, b) => Some(b.0),
        _ => None,
    }
}

// The formula that an effect adds to those that are to be true at the next position.
fn later_of(effect: Effect) -> Option<u16>
    ensures later { result ≡ later_of effect }
{
    match effect {
        Effect::Waits(_, later) => Some(later.0),
        Effect::Later(a) => Some(a.0),
        _ => None,
    }
}

// Puts a number into a set, if one is given.
fn add_option(set: &mut Bits, number: Option<u16>) -> Result<(), Memory>
    ensures added { OnOk result (set.new ≡ with_option number set.old) }
{
    match number {
        Some(number) => set.add(number),
        None => Ok(()),
    }
}

// Meets the set of one variable with that of an effect, if the effect has one.
fn meet_by(now: &mut Vec<Values>, effect: Effect)
    ensures met { sets_of now.new.items ≡ met_by effect (sets_of now.old.items) }
{
    if let Effect::Meets(x, set) = effect {
        let place = usize::from(x.0);
        if place < now.len() {
            now[place] = now[place].meet(set);
        }
    }
}

// Makes the sets of one node those of another.
fn copy_sets(now: &mut Vec<Values>, other: &[Values]) -> Result<(), Memory>
    ensures copied { OnOk result (now.new.items ≡ other.now) }
{
    now.clear();
    now.reserve_exact(other.len())?;
    now.extend_from_slice(other)?;
    Ok(())
}

// Makes the kid what an effect makes of a node that works on the formula `gone`.
fn change(node: &Node, gone: FormulaId, effect: Effect, kid: &mut Node) -> Result<(), Memory>
    ensures changed { OnOk result (node_of kid.new ≡ kid_by (node_of node.entry.now) gone.0 effect) }
{
    kid.todo.copy(&node.todo)?;
    kid.todo.remove(gone.0);
    add_option(&mut kid.todo, first_of(effect))?;
    add_option(&mut kid.todo, second_of(effect))?;
    copy_sets(&mut kid.now, &node.now)?;
    meet_by(&mut kid.now, effect);
    kid.next.copy(&node.next)?;
    add_option(&mut kid.next, later_of(effect))?;
    Ok(())
}

// What an effect makes of the set of the variable at this place.
fn set_by(effect: Effect, place: usize, old: Values) -> Values
    ensures set { result.0 ≡ set_by effect place old.0 }
{
    match effect {
        Effect::Meets(x, set) => {
            if place == usize::from(x.0) {
                old.meet(set)
            } else {
                old
            }
        }
        _ => old,
    }
}

// Whether the new sets are what an effect makes of the old ones.
fn is_met_by(effect: Effect, old: &[Values], new: &[Values]) -> bool
    ensures met { IsTrue result ↔ (sets_of new.now ≡ met_by effect (sets_of old.now)) }
{
    if old.len() != new.len() {
        return false;
    }
    'places: for place in 0..old.len() {
        if new[place].0 != set_by(effect, place, old[place]).0 {
            return false;
        }
    }
    true
}

// Whether another node is what an effect makes of a node that works on the formula `gone`.
fn is_changed(node: &Node, gone: FormulaId, effect: Effect, other: &Node) -> bool
    ensures changed { IsTrue result ↔ (node_of other.entry.now ≡ kid_by (node_of node.entry.now) gone.0 effect) }
{
    let (first, second) = (first_of(effect), second_of(effect));
    other.todo.follows(&node.todo, Some(gone.0), first, second)
        && other.next.follows(&node.next, None, later_of(effect), None)
        && is_met_by(effect, &node.now, &other.now)
}

// Makes the kid the node that a step leads to, where `full` has all indexes of each variable.
fn step(full: &[Values], node: &Node, kid: &mut Node) -> Result<(), Memory>
    ensures stepped { OnOk result (node_of kid.new ≡ stepped (sets_of full.now) (node_of node.entry.now)) }
{
    kid.todo.copy(&node.next)?;
    copy_sets(&mut kid.now, full)?;
    kid.next.clear();
    Ok(())
}

/// Whether the variables have the same sets.
pub(crate) fn are_same(a: &[Values], b: &[Values]) -> bool
    ensures same { IsTrue result ↔ (sets_of a.now ≡ sets_of b.now) }
{
    a == b
}

// Whether another node is the one that a step leads to.
fn is_stepped(full: &[Values], node: &Node, other: &Node) -> bool
    ensures stepped { IsTrue result ↔ (node_of other.entry.now ≡ stepped (sets_of full.now) (node_of node.entry.now)) }
{
    other.todo.same(&node.next) && are_same(&other.now, full) && is_empty(&other.next)
}

// The effect that makes the kid of this number, where there is one.
fn effect_at(turn: Turn, which: u8) -> Option<Effect>
    ensures effect { result ≡ slice_get (effects_of turn) which }
{
    match turn {
        Turn::Clash | Turn::Step => None,
        Turn::One(first) | Turn::FulfilOnly(first) | Turn::WaitOnly(first) => {
            if which == 0 { Some(first) } else { None }
        }
        Turn::Two(first, second) | Turn::FulfilOrWait(first, second) => {
            if which == 0 {
                Some(first)
            } else if which == 1 {
                Some(second)
            } else {
                None
            }
        }
    }
}

// Whether the turn is a step.
fn is_step(turn: Turn) -> bool
    ensures step { IsTrue result ↔ (turn ≡ Turn.Step) }
{
    matches!(turn, Turn::Step)
}

/// Makes a node the kid of this number of another, whose turn and formula are given. `full` has all
/// indexes of each variable.
pub(crate) fn make_kid_of(
    table: &Table,
    full: &[Values],
    node: &Node,
    turn: Turn,
    id: FormulaId,
    which: u8,
    kid: &mut Node,
) -> Result<(), Memory>
    requires turn { IsTurnOf (closure_in table.now) (node_of node.now) turn id.0 }
    requires which { which < length (kids (closure_in table.now) (sets_of full.now) (node_of node.now)) }
    ensures kid { OnOk result (slice_get (kids (closure_in table.now) (sets_of full.now) (node_of node.entry.now)) which ≡ Some (node_of kid.new)) }
{
    match effect_at(turn, which) {
        Some(effect) => change(node, id, effect, kid),
        None => step(full, node, kid),
    }
}

// Whether another node is the kid of this number, where a step makes the only one.
fn is_only(full: &[Values], node: &Node, which: u8, other: &Node) -> bool
    ensures only { IsTrue result ↔ (slice_get (stepped (sets_of full.now) (node_of node.entry.now) ∷ []) which ≡ Some (node_of other.entry.now)) }
{
    if which == 0 {
        is_stepped(full, node, other)
    } else {
        false
    }
}

// Whether another node is the kid of this number, where the effects of the turn make them.
fn is_made(node: &Node, id: FormulaId, turn: Turn, which: u8, other: &Node) -> bool
    ensures made { IsTrue result ↔ (slice_get (map (kid_by (node_of node.entry.now) id.0) (effects_of turn)) which ≡ Some (node_of other.entry.now)) }
{
    match effect_at(turn, which) {
        Some(effect) => is_changed(node, id, effect, other),
        None => false,
    }
}

/// Whether another node is the node's kid of this number. A number that the kids do not reach has
/// none.
pub(crate) fn is_kid_of(
    formulas: &Formulas,
    full: &[Values],
    node: &Node,
    which: u8,
    other: &Node,
) -> bool
    requires { AreNumbersBelow (length (closure_in formulas.now.table)) node.now.todo }
    ensures kid { IsTrue result ↔ (slice_get (kids (closure_in formulas.now.table) (sets_of full.now) (node_of node.entry.now)) which ≡ Some (node_of other.entry.now)) }
{
    let (turn, id) = turn(formulas, node);
    if is_step(turn) {
        is_only(full, node, which, other)
    } else {
        is_made(node, id, turn, which, other)
    }
}
