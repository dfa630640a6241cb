//! The tableau of a query over a space: its root, the rule of a node and the node's kids.

ghost use Rattle.std.specs.Prelude.{◌≡◌, ℕ, ◌<◌, ◌↔◌, IsTrue, IfOk, OnOk, List, length, slice_get, Some};
ghost use Rattle.state_space.specs.Members.{full_of};
ghost use Rattle.state_space.specs.Spaces.{sizes};
ghost use Rattle.bound_unfolding.specs.CoreForm.{CoreForm};
ghost use Rattle.formula_table.specs.Closures.{closure_of};
ghost use Rattle.tableau_rules.specs.Nodes.{chosen, node_rule, kids, root_of};
ghost use Rattle.tableau_rules.specs.NodeView.{node_of, AreNumbersBelow};
ghost use Rattle.tableau_rules.specs.QueryView.{cores_in};
ghost use Rattle.tableau_rules.specs.Certificates.{IsOfQuery};
ghost use Rattle.tableau_rules.specs.KidsView.{count_of};
ghost use Rattle.tableau_rules.specs.Turns.{rule_in};
ghost use Rattle.tableau_rules.specs.NodeTurns.{IsTurnOf};
ghost use Rattle.tableau_rules.specs.Kinds.{kind_of, kid_count_of};

use crate::bits::Bits;
use crate::effect::Turn;
use crate::kids::{are_same, is_kid_of, make_kid_of};
use crate::kind::RuleKind;
use crate::node::{self, Node, is_empty};
use crate::query::Query;
use formula_table::FormulaId;
use source_sink::Memory;
use state_space::Space;
use std::alloc::Global;

/// The node that asks for all that the query asks for.
pub fn root(alloc: Global, space: &Space, query: &Query) -> Result<Node, Memory>
    ensures of_query { IfOk result (λ n. IsOfQuery (sizes space.now) (closure_of (cores_in query.now)) (node_of n)) }
    ensures root { IfOk result (λ n. node_of n ≡ root_of (closure_of (cores_in query.now)) (full_of (sizes space.now)) (cores_in query.now)) }
{
    let todo = query.start().clone(alloc)?;
    let now = Vec::from_slice(alloc, space.full())?;
    let next = Bits::new(alloc);
    Ok(Node { todo, now, next })
}

/// Whether the node is the query's root. It takes no memory.
pub fn is_root(space: &Space, query: &Query, node: &Node) -> bool
    ensures root { IsTrue result ↔ (node_of node.entry.now ≡ root_of (closure_of (cores_in query.now)) (full_of (sizes space.now)) (cores_in query.now)) }
{
    node.todo.same(query.start()) && are_same(&node.now, space.full()) && is_empty(&node.next)
}

// The kind of a turn of the formula.
fn kind_of(turn: Turn, formula: u16) -> RuleKind
    ensures kind { (closure : List CoreForm) → result ≡ kind_of formula (rule_in closure turn) }
    ensures count { kid_count_of result ≡ count_of turn }
{
    match turn {
        Turn::Clash => RuleKind::Clash,
        Turn::Step => RuleKind::Step,
        Turn::One(_) => RuleKind::One,
        Turn::Two(_, _) => RuleKind::Two,
        Turn::FulfilOnly(_) => RuleKind::FulfilOnly(formula),
        Turn::WaitOnly(_) => RuleKind::WaitOnly(formula),
        Turn::FulfilOrWait(_, _) => RuleKind::FulfilOrWait(formula),
    }
}

/// The rule of a node whose formulas have numbers of the query. It takes no memory.
pub fn rule(query: &Query, node: &Node) -> RuleKind
    requires { AreNumbersBelow (length (closure_of (cores_in query.now))) node.now.todo }
    ensures kind { result ≡ kind_of (chosen (closure_of (cores_in query.now)) node.entry.now.todo) (node_rule (closure_of (cores_in query.now)) (node_of node.entry.now)) }
    ensures count { (full : List ℕ) → kid_count_of result ≡ length (kids (closure_of (cores_in query.now)) full (node_of node.entry.now)) }
{
    let (turn, chosen) = node::turn(query.formulas(), node);
    kind_of(turn, chosen.0)
}

/// The turn of a node, which is found once for all its kids.
#[derive(Clone, Copy)]
pub struct NodeTurn {
    turn: Turn,
    formula: FormulaId,
}

impl NodeTurn {
    /// How many kids the node has.
    pub fn kid_count(self) -> u8
        ensures count { result ≡ count_of self.turn }
    {
        kind_of(self.turn, 0).kid_count()
    }
}

/// The turn of a node whose formulas have numbers of the query. It takes no memory.
pub fn turn(query: &Query, node: &Node) -> NodeTurn
    requires { AreNumbersBelow (length (closure_of (cores_in query.now))) node.now.todo }
    ensures turn { IsTurnOf (closure_of (cores_in query.now)) (node_of node.entry.now) result.turn result.formula.0 }
    ensures count { (full : List ℕ) → count_of result.turn ≡ length (kids (closure_of (cores_in query.now)) full (node_of node.entry.now)) }
{
    let (turn, formula) = node::turn(query.formulas(), node);
    NodeTurn { turn, formula }
}

/// Makes a node the kid of this number of another, whose turn is given. What it was before is of no
/// account, but its memory is used again.
pub fn make_kid(
    space: &Space,
    query: &Query,
    node: &Node,
    turn: NodeTurn,
    which: u8,
    kid: &mut Node,
) -> Result<(), Memory>
    requires turn { IsTurnOf (closure_of (cores_in query.now)) (node_of node.now) turn.turn turn.formula.0 }
    requires which { which < length (kids (closure_of (cores_in query.now)) (full_of (sizes space.now)) (node_of node.now)) }
    ensures kid { OnOk result (slice_get (kids (closure_of (cores_in query.now)) (full_of (sizes space.now)) (node_of node.entry.now)) which ≡ Some (node_of kid.new)) }
    ensures of_query { IsOfQuery (sizes space.now) (closure_of (cores_in query.now)) (node_of node.entry.now)
        → OnOk result (IsOfQuery (sizes space.now) (closure_of (cores_in query.now)) (node_of kid.new)) }
{
    let table = &query.formulas().table;
    make_kid_of(
        table,
        space.full(),
        node,
        turn.turn,
        turn.formula,
        which,
        kid,
    )
}

/// The node's kid of this number, which is below the count of its rule.
pub fn kid(
    alloc: Global,
    space: &Space,
    query: &Query,
    node: &Node,
    which: u8,
) -> Result<Node, Memory>
    requires todo { AreNumbersBelow (length (closure_of (cores_in query.now))) node.now.todo }
    requires which { which < length (kids (closure_of (cores_in query.now)) (full_of (sizes space.now)) (node_of node.now)) }
    ensures kid { IfOk result (λ k. slice_get (kids (closure_of (cores_in query.now)) (full_of (sizes space.now)) (node_of node.entry.now)) which ≡ Some (node_of k)) }
    ensures of_query { IsOfQuery (sizes space.now) (closure_of (cores_in query.now)) (node_of node.entry.now)
        → IfOk result (λ k. IsOfQuery (sizes space.now) (closure_of (cores_in query.now)) (node_of k)) }
{
    let mut made = Node::empty(alloc);
    make_kid(space, query, node, turn(query, node), which, &mut made)?;
    Ok(made)
}

/// Whether another node is the node's kid of this number. A number that the kids do not reach has
/// none. It takes no memory.
pub fn is_kid(space: &Space, query: &Query, node: &Node, which: u8, other: &Node) -> bool
    requires { AreNumbersBelow (length (closure_of (cores_in query.now))) node.now.todo }
    ensures kid { IsTrue result ↔ (slice_get (kids (closure_of (cores_in query.now)) (full_of (sizes space.now)) (node_of node.entry.now)) which ≡ Some (node_of other.entry.now)) }
{
    is_kid_of(query.formulas(), space.full(), node, which, other)
}
