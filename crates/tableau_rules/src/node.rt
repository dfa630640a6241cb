//! Nodes of the tableau as they are kept, sets of numbers as words, and the turn of a node: the
//! formula that it works on, and the rule of that formula. The plain forms are `NodeForm`, `chosen`
//! and `node_rule` of specs/Nodes.antt. Equal nodes are equal word by word, so that one can be
//! looked up.

ghost use Rattle.std.specs.Prelude.{◌≡◌, ◌≢◌, ◌<◌, ◌↔◌, IsTrue, [], length};
ghost use Rattle.formula_table.specs.Tables.{closure_in};
ghost use Rattle.tableau_rules.specs.Nodes.{chosen, node_rule};
ghost use Rattle.tableau_rules.specs.NodeView.{node_of, AreNumbersBelow};
ghost use Rattle.tableau_rules.specs.Turns.{rule_in, TurnBelow};

use crate::bits::Bits;
use crate::effect::Turn;
use crate::formula_rule::{formula_rule, has_empty};
use crate::formulas::Formulas;
use formula_table::FormulaId;
use state_space::Values;
use std::alloc::Global;

/// What is asked of a trace from a position on. Formulas are given by their numbers in a table.
#[derive(PartialEq, Eq, Hash, Drop)]
pub struct Node {
    /// The formulas that are to be true now.
    pub todo: Bits,
    /// For each variable the set that its index now lies in.
    pub now: Vec<Values>,
    /// The formulas that are to be true at the next position.
    pub next: Bits,
}

impl Node {
    /// The node that asks for nothing, of no variables. It takes no memory.
    pub fn empty(alloc: Global) -> Node {
        Node {
            todo: Bits::new(alloc),
            now: Vec::new(alloc),
            next: Bits::new(alloc),
        }
    }
}

/// Whether the set has no number.
pub(crate) fn is_empty(set: &Bits) -> bool
    ensures empty { IsTrue result ↔ (set.now ≡ []) }
{
    match set.least_from(0) {
        Some(_) => false,
        None => true,
    }
}

// The formula whose turn it is: of the least class, and of these the one with the least number. It
// is 0 where there is nothing to do. There are three classes: what is neither of the first nor of
// the second is of the third.
fn chosen(formulas: &Formulas, todo: &Bits) -> FormulaId
    requires { AreNumbersBelow (length (closure_in formulas.now.table)) todo.now }
    ensures chosen { result.0 ≡ chosen (closure_in formulas.now.table) todo.now }
    ensures inside { todo.now ≢ [] → result.0 < length (closure_in formulas.now.table) }
{
    if let Some(number) = todo.first_in(&formulas.first) {
        return FormulaId(number);
    }
    if let Some(number) = todo.first_in(&formulas.second) {
        return FormulaId(number);
    }
    match todo.least_from(0) {
        Some(number) => FormulaId(number),
        None => FormulaId(0),
    }
}

/// The turn of a node, and the formula that it works on. A variable with no index left is a clash.
pub(crate) fn turn(formulas: &Formulas, node: &Node) -> (Turn, FormulaId)
    requires { AreNumbersBelow (length (closure_in formulas.now.table)) node.now.todo }
    ensures rule { rule_in (closure_in formulas.now.table) result.0 ≡ node_rule (closure_in formulas.now.table) (node_of node.entry.now) }
    ensures chosen { result.1.0 ≡ chosen (closure_in formulas.now.table) node.entry.now.todo }
    ensures below { TurnBelow (length (closure_in formulas.now.table)) result.0 }
{
    let id = chosen(formulas, &node.todo);
    if has_empty(&node.now) {
        (Turn::Clash, id)
    } else if is_empty(&node.todo) {
        (Turn::Step, id)
    } else {
        (formula_rule(&formulas.table, &node.now, id), id)
    }
}
