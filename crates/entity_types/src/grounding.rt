//! From written formulas to plain ones, for crates that know no quantifier: a quantifier becomes
//! `and` or `or` over the members of its type in order, grouped to the left. The plain formula is
//! that of specs/Grounding.antt; size.rt counts it and has to be changed with it.

ghost use Rattle.std.specs.Prelude.{◌≡◌, ◌↔◌, ℕ, ◌<◌, [], ◌∷◌, ◌++◌, length, IfOk};
ghost use Rattle.temporal_logic.specs.Ltl.{conj, disj};
ghost use Rattle.temporal_logic.specs.Trees.{tree_of};
ghost use Rattle.temporal_logic.specs.Truth.{Trace, Truth};
ghost use Rattle.entity_types.specs.Operators.{opened, joined as joined_by};
ghost use Rattle.entity_types.specs.Rows.{count_of};
ghost use Rattle.entity_types.specs.View.{term_of, atom_of, written_tree, rows_of};
ghost use Rattle.entity_types.specs.WrittenTruth.{named_by, plain_atom, WrittenTruth};
ghost use Rattle.entity_types.specs.Grounding.{over, ground_of};
ghost use Rattle.entity_types.specs.Fits.{TermIsThere, AtomIsThere, IsThere, Fits};

use crate::entities::Entities;
use crate::written::{Atom, Joining, Opening, Term, Written};
use source_sink::Memory;
use state_space::VarId;
use std::alloc::Global;
use temporal_logic::Formula;

// The variable that a term names under a choice.
fn named_by(entities: &Entities, choice: &[u8], term: Term) -> VarId
    requires { TermIsThere (rows_of entities.now) choice.now (term_of term) }
    ensures { result.0 ≡ named_by (rows_of entities.now) choice.now (term_of term) }
{
    match term {
        Term::Var(x) => x,
        Term::Of(attr, member) => entities.variable(attr, member),
        Term::Bound(attr, level) => entities.variable(attr, choice[level as usize]),
    }
}

// An atom over the variables that its terms name.
fn plain_atom(entities: &Entities, choice: &[u8], atom: Atom) -> Formula
    requires { AtomIsThere (rows_of entities.now) choice.now (atom_of atom) }
    ensures { tree_of result ≡ plain_atom (rows_of entities.now) choice.now (atom_of atom) }
{
    match atom {
        Atom::True => Formula::True,
        Atom::False => Formula::False,
        Atom::Flag(x) => Formula::Flag(named_by(entities, choice, x)),
        Atom::Is(x, c, value) => Formula::Is(named_by(entities, choice, x), c, value),
        Atom::Among(x, set) => Formula::Among(named_by(entities, choice, x), set),
        Atom::Same(x, c, y) => {
            Formula::Same(
                named_by(entities, choice, x),
                c,
                named_by(entities, choice, y),
            )
        }
    }
}

// The plain formula that an operator makes of its operand.
fn opened(alloc: Global, opening: Opening, operand: Formula) -> Result<Formula, Memory>
    ensures { IfOk result (λ f. tree_of f ≡ opened opening (tree_of operand)) }
{
    let operand = Box::new(alloc, operand)?;
    Ok(match opening {
        Opening::Not => Formula::Not(operand),
        Opening::Next => Formula::Next(operand),
        Opening::Eventually => Formula::Eventually(operand),
        Opening::Always => Formula::Always(operand),
        Opening::EventuallyWithin(steps) => Formula::EventuallyWithin(steps, operand),
        Opening::AlwaysWithin(steps) => Formula::AlwaysWithin(steps, operand),
    })
}

// The plain formula that an operator makes of its two operands.
fn joined(
    alloc: Global,
    joining: Joining,
    first: Formula,
    second: Formula,
) -> Result<Formula, Memory>
    ensures { IfOk result (λ f. tree_of f ≡ joined_by joining (tree_of first) (tree_of second)) }
{
    let first = Box::new(alloc, first)?;
    let second = Box::new(alloc, second)?;
    Ok(match joining {
        Joining::And => Formula::And(first, second),
        Joining::Or => Formula::Or(first, second),
        Joining::Implies => Formula::Implies(first, second),
        Joining::Iff => Formula::Iff(first, second),
        Joining::Entails => Formula::Entails(first, second),
        Joining::Until => Formula::Until(first, second),
        Joining::Unless => Formula::Unless(first, second),
        Joining::Release => Formula::Release(first, second),
        Joining::UntilWithin(steps) => Formula::UntilWithin(steps, first, second),
        Joining::UnlessWithin(steps) => Formula::UnlessWithin(steps, first, second),
        Joining::ReleaseWithin(steps) => Formula::ReleaseWithin(steps, first, second),
    })
}

// The choice with one member more.
fn longer(alloc: Global, choice: &[u8], member: u8) -> Result<Vec<u8>, Memory>
    ensures { IfOk result (λ c. c.items ≡ choice.now ++ member ∷ []) }
{
    let mut longer = Vec::new(alloc);
    longer.extend_from_slice(choice)?;
    longer.push(member)?;
    Ok(longer)
}

// The plain formula with a member for the next level.
#[cycle(ground)]
fn ground_with(
    alloc: Global,
    entities: &Entities,
    choice: &[u8],
    member: u8,
    f: &Written,
) -> Result<Formula, Memory>
    requires { IsThere (rows_of entities.now) (choice.now ++ member ∷ []) (written_tree f.now) }
    ensures { IfOk result (λ g. tree_of g ≡ ground_of (rows_of entities.now) (choice.now ++ member ∷ []) (written_tree f.now)) }
{
    let longer = longer(alloc, choice, member)?;
    ground_under(alloc, entities, &longer, f)
}

// The plain formulas with each member for the next level, joined.
#[tactic(auto, using(crate::proofs::SameTruth::over_more))]
#[cycle(ground)]
fn ground_each(
    alloc: Global,
    entities: &Entities,
    choice: &[u8],
    joining: Joining,
    entity: u16,
    f: &Written,
) -> Result<Formula, Memory>
    requires entity { entity < length (rows_of entities.now).counts }
    requires there { (m : ℕ) → m < count_of (rows_of entities.now) entity → IsThere (rows_of entities.now) (choice.now ++ m ∷ []) (written_tree f.now) }
    ensures { IfOk result (λ g. tree_of g ≡ over (joined_by joining) (λ m. ground_of (rows_of entities.now) (choice.now ++ m ∷ []) (written_tree f.now)) (count_of (rows_of entities.now) entity)) }
{
    let count = entities.member_count(entity);
    let mut formula = ground_with(alloc, entities, choice, 0, f)?;
    'members: for member in 1..count {
        let next = ground_with(alloc, entities, choice, member, f)?;
        formula = joined(alloc, joining, formula, next)?;
    }
    Ok(formula)
}

// The plain formula under a choice.
#[cycle(ground)]
fn ground_under(
    alloc: Global,
    entities: &Entities,
    choice: &[u8],
    f: &Written,
) -> Result<Formula, Memory>
    requires { IsThere (rows_of entities.now) choice.now (written_tree f.now) }
    ensures { IfOk result (λ g. tree_of g ≡ ground_of (rows_of entities.now) choice.now (written_tree f.now)) }
{
    match f {
        Written::Atom(atom) => Ok(plain_atom(entities, choice, *atom)),
        Written::Opened(opening, a) => {
            let operand = ground_under(alloc, entities, choice, a)?;
            opened(alloc, *opening, operand)
        }
        Written::Joined(joining, operands) => {
            let first = ground_under(alloc, entities, choice, &operands.0)?;
            let second = ground_under(alloc, entities, choice, &operands.1)?;
            joined(alloc, *joining, first, second)
        }
        Written::All(entity, a) => ground_each(alloc, entities, choice, Joining::And, *entity, a),
        Written::Exists(entity, a) => ground_each(alloc, entities, choice, Joining::Or, *entity, a),
    }
}

/// The plain formula of a written one that fits the entities, and is true wherever that is. Only
/// memory can be wanting.
#[tactic(auto, using(crate::proofs::Choices::whole_there))]
pub fn ground(alloc: Global, entities: &Entities, f: &Written) -> Result<Formula, Memory>
    requires fits { Fits (rows_of entities.now) [] (written_tree f.now) }
    ensures tree { IfOk result (λ g. tree_of g ≡ ground_of (rows_of entities.now) [] (written_tree f.now)) }
    ensures truth { IfOk result (λ g. (t : Trace) (i : ℕ) → Truth t (tree_of g) i ↔ WrittenTruth (rows_of entities.now) t [] (written_tree f.now) i) }
{
    ground_under(alloc, entities, &[], f)
}
