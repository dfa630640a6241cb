//! The cores of formulas, of both signs, for those who decide a formula: one match arm an operator,
//! in the order of `core_tree` in specs/CoreTree.antt, whose tree each core is. A sign is handed
//! down and no negation is built, since the opposite of a core is again a core.

ghost use Rattle.std.specs.Prelude.{◌≡◌, ℕ, ◌<◌, ◌≤◌, ◌↔◌, not, true, false, IfOk, length, slice_index, if◌then◌else◌};
ghost use Rattle.state_space.specs.Members.{others};
ghost use Rattle.state_space.specs.Spaces.{ranges, sizes};
ghost use Rattle.temporal_logic.specs.Trees.{tree_of, relation_of};
ghost use Rattle.temporal_logic.specs.Truth.{Trace, Truth};
ghost use Rattle.temporal_logic.specs.Traces.{IsPeriodic};
ghost use Rattle.temporal_logic.specs.Fits.{Fits};
ghost use Rattle.bound_unfolding.specs.CoreForm.{lit, after, CoreTruth, nodes, levels};
ghost use Rattle.bound_unfolding.specs.CoreTree.{stand, signed, indexes, constant, joined, fixed, term_before, sum_from, steps, chain, core_tree, Signed};
ghost use Rattle.bound_unfolding.specs.CoreView.{core_tree_of};
ghost use Rattle.bound_unfolding.specs.CoreTexts.{CoreFits};

use crate::comparison::{indexes_from, indexes_to, signed};
use crate::core_form::Core;
use source_sink::Memory;
use state_space::{Space, Values, VarId};
use std::alloc::Global;
use temporal_logic::{Cmp, Formula};

fn constant(value: bool) -> Core
    ensures { core_tree_of result ≡ constant value }
{
    if value { Core::True } else { Core::False }
}

// The values of a truth variable of which a sign holds.
fn flag(x: VarId, positive: bool) -> Core
    ensures { core_tree_of result ≡ lit x.0 (if positive then 2 else 1) }
{
    Core::Lit(x, Values(if positive { 2 } else { 1 }))
}

// A comparison with a value, or the opposite one, as a literal.
#[tactic(auto, using(state_space::proofs::SpaceFacts::as_many_ranges))]
fn comparison(space: &Space, x: VarId, cmp: Cmp, value: u8, positive: bool) -> Core
    requires { x.0 < length (ranges space.now) }
    ensures { core_tree_of result ≡ lit x.0 (indexes (λ i. stand (signed positive (relation_of cmp)) i value) (slice_index (sizes space.now) x.0)) }
{
    Core::Lit(
        x,
        indexes_to(signed(cmp, positive), value, space.size_of(x)),
    )
}

// A set of values or the other values of the variable, as a literal.
#[tactic(auto, using(state_space::proofs::SpaceFacts::as_many_ranges))]
fn among(space: &Space, x: VarId, set: Values, positive: bool) -> Core
    requires { x.0 < length (ranges space.now) }
    ensures { core_tree_of result ≡ lit x.0 (if positive then set.0 else others set.0 (slice_index (sizes space.now) x.0)) }
{
    if positive {
        return Core::Lit(x, set);
    }
    Core::Lit(x, set.complement(space.size_of(x)))
}

// The space of a formula, and where its core is to lie.
#[derive(Clone, Copy)]
struct Unfolding<'space> {
    alloc: Global,
    space: &'space Space,
}

impl<'space> Unfolding<'space> {
    // Both operands for `each`, else at least one: the two change places where the sign does.
    fn joined(&self, each: bool, a: Core, b: Core) -> Result<Core, Memory>
        ensures { IfOk result (λ core. core_tree_of core ≡ joined each (core_tree_of a) (core_tree_of b)) }
    {
        let a = Box::new(self.alloc, a)?;
        let b = Box::new(self.alloc, b)?;
        if each {
            Ok(Core::And(a, b))
        } else {
            Ok(Core::Or(a, b))
        }
    }

    // For `each` the first releases the second, else it is true until the second is.
    fn fixed(&self, each: bool, a: Core, b: Core) -> Result<Core, Memory>
        ensures { IfOk result (λ core. core_tree_of core ≡ fixed each (core_tree_of a) (core_tree_of b)) }
    {
        let a = Box::new(self.alloc, a)?;
        let b = Box::new(self.alloc, b)?;
        if each {
            Ok(Core::Release(a, b))
        } else {
            Ok(Core::Until(a, b))
        }
    }

    // An operand at the next position.
    fn after(&self, a: Core) -> Result<Core, Memory>
        ensures { IfOk result (λ core. core_tree_of core ≡ after (core_tree_of a)) }
    {
        Ok(Core::Next(Box::new(self.alloc, a)?))
    }

    // An operand now and at each step up to a bound.
    fn steps(&self, each: bool, bound: u8, a: &Core) -> Result<Core, Memory>
        ensures { IfOk result (λ core. core_tree_of core ≡ steps each bound (core_tree_of a.now)) }
    {
        let mut all = a.clone(self.alloc)?;
        'steps: for _step in 0..bound {
            let later = self.after(all)?;
            all = self.joined(each, a.clone(self.alloc)?, later)?;
        }
        Ok(all)
    }

    // The second operand now, joined with the first and so on at the next step.
    fn chain(&self, each: bool, bound: u8, a: &Core, b: &Core) -> Result<Core, Memory>
        ensures { IfOk result (λ core. core_tree_of core ≡ chain each bound (core_tree_of a.now) (core_tree_of b.now)) }
    {
        let mut all = b.clone(self.alloc)?;
        'chain: for _step in 0..bound {
            let later = self.after(all)?;
            let on = self.joined(!each, a.clone(self.alloc)?, later)?;
            all = self.joined(each, b.clone(self.alloc)?, on)?;
        }
        Ok(all)
    }

    // The chain of an until of a sign, or the steps of its first operand where it fails.
    fn weak_chain(&self, positive: bool, bound: u8, a: &Core, b: &Core) -> Result<Core, Memory>
        ensures { IfOk result (λ core. core_tree_of core ≡ joined (not positive) (chain (not positive) bound (core_tree_of a.now) (core_tree_of b.now)) (steps positive bound (core_tree_of a.now))) }
    {
        let first = self.chain(!positive, bound, a, b)?;
        self.joined(!positive, first, self.steps(positive, bound, a)?)
    }

    // A sum with one more term at its front: the false one has no term.
    fn with_term(&self, term: Core, sum: Core) -> Result<Core, Memory>
        ensures { IfOk result (λ core. core_tree_of core ≡ term_before (core_tree_of term) (core_tree_of sum)) }
    {
        match sum {
            Core::False => Ok(term),
            _ => self.joined(false, term, sum),
        }
    }

    // A comparison of two variables: for each index of the first, that index and those of the
    // second that it stands to.
    #[tactic(auto, using(state_space::proofs::SpaceFacts::as_many_ranges))]
    fn sum(&self, x: VarId, cmp: Cmp, y: VarId) -> Result<Core, Memory>
        requires x_of_space { x.0 < length (ranges self.now.space.now) }
        requires y_of_space { y.0 < length (ranges self.now.space.now) }
        ensures { IfOk result (λ core. core_tree_of core ≡ sum_from (relation_of cmp) x.0 y.0 (slice_index (sizes self.now.space.now) y.0) 0 (slice_index (sizes self.now.space.now) x.0)) }
    {
        let (first, second) = (self.space.size_of(x), self.space.size_of(y));
        let mut sum = Core::False;
        'terms: for index in (0..first).rev() {
            let set = indexes_from(index, cmp, second);
            if set.0 != 0 {
                let here = Core::Lit(x, Values(1 << index));
                let term = self.joined(true, here, Core::Lit(y, set))?;
                sum = self.with_term(term, sum)?;
            }
        }
        Ok(sum)
    }

    // A release of the false core, or an until from the true one: the operand always or at some time.
    fn ever(&self, each: bool, a: Core) -> Result<Core, Memory>
        ensures { IfOk result (λ core. core_tree_of core ≡ fixed each (constant (not each)) (core_tree_of a)) }
    {
        self.fixed(each, constant(!each), a)
    }

    // The cores of two operands of these signs, both or one of them.
    #[cycle(cores)]
    fn joined_of(
        &self,
        each: bool,
        a: &Formula,
        of_a: bool,
        b: &Formula,
        of_b: bool,
    ) -> Result<Core, Memory>
        requires first { Fits (ranges self.now.space.now) (tree_of a.now) }
        requires second { Fits (ranges self.now.space.now) (tree_of b.now) }
        ensures { IfOk result (λ core. core_tree_of core ≡ joined each (core_tree (sizes self.now.space.now) of_a (tree_of a.now)) (core_tree (sizes self.now.space.now) of_b (tree_of b.now))) }
    {
        let first = self.core(a, of_a)?;
        self.joined(each, first, self.core(b, of_b)?)
    }

    // The core of the first operand releases that of the second, or is true until it is.
    #[cycle(cores)]
    fn fixed_of(&self, each: bool, a: &Formula, b: &Formula, positive: bool) -> Result<Core, Memory>
        requires first { Fits (ranges self.now.space.now) (tree_of a.now) }
        requires second { Fits (ranges self.now.space.now) (tree_of b.now) }
        ensures { IfOk result (λ core. core_tree_of core ≡ fixed each (core_tree (sizes self.now.space.now) positive (tree_of a.now)) (core_tree (sizes self.now.space.now) positive (tree_of b.now))) }
    {
        let first = self.core(a, positive)?;
        self.fixed(each, first, self.core(b, positive)?)
    }

    // Both operands, or neither; or exactly one of them.
    #[cycle(cores)]
    fn iff_of(&self, a: &Formula, b: &Formula, positive: bool) -> Result<Core, Memory>
        requires first { Fits (ranges self.now.space.now) (tree_of a.now) }
        requires second { Fits (ranges self.now.space.now) (tree_of b.now) }
        ensures { IfOk result (λ core. core_tree_of core ≡ joined false (joined true (core_tree (sizes self.now.space.now) true (tree_of a.now)) (core_tree (sizes self.now.space.now) positive (tree_of b.now))) (joined true (core_tree (sizes self.now.space.now) false (tree_of a.now)) (core_tree (sizes self.now.space.now) (not positive) (tree_of b.now)))) }
    {
        let first = self.joined_of(true, a, true, b, positive)?;
        self.joined(false, first, self.joined_of(true, a, false, b, !positive)?)
    }

    #[cycle(cores)]
    fn unless_of(&self, a: &Formula, b: &Formula, positive: bool) -> Result<Core, Memory>
        requires first { Fits (ranges self.now.space.now) (tree_of a.now) }
        requires second { Fits (ranges self.now.space.now) (tree_of b.now) }
        ensures { IfOk result (λ core. core_tree_of core ≡ fixed positive (core_tree (sizes self.now.space.now) positive (tree_of b.now)) (joined (not positive) (core_tree (sizes self.now.space.now) positive (tree_of a.now)) (core_tree (sizes self.now.space.now) positive (tree_of b.now)))) }
    {
        let last = self.core(b, positive)?;
        let step = self.joined_of(!positive, a, positive, b, positive)?;
        self.fixed(positive, last, step)
    }

    #[cycle(cores)]
    fn steps_of(&self, each: bool, bound: u8, a: &Formula, positive: bool) -> Result<Core, Memory>
        requires { Fits (ranges self.now.space.now) (tree_of a.now) }
        ensures { IfOk result (λ core. core_tree_of core ≡ steps each bound (core_tree (sizes self.now.space.now) positive (tree_of a.now))) }
    {
        self.steps(each, bound, &self.core(a, positive)?)
    }

    #[cycle(cores)]
    fn chain_of(
        &self,
        each: bool,
        bound: u8,
        a: &Formula,
        b: &Formula,
        positive: bool,
    ) -> Result<Core, Memory>
        requires first { Fits (ranges self.now.space.now) (tree_of a.now) }
        requires second { Fits (ranges self.now.space.now) (tree_of b.now) }
        ensures { IfOk result (λ core. core_tree_of core ≡ chain each bound (core_tree (sizes self.now.space.now) positive (tree_of a.now)) (core_tree (sizes self.now.space.now) positive (tree_of b.now))) }
    {
        self.chain(
            each,
            bound,
            &self.core(a, positive)?,
            &self.core(b, positive)?,
        )
    }

    #[cycle(cores)]
    fn weak_chain_of(
        &self,
        bound: u8,
        a: &Formula,
        b: &Formula,
        positive: bool,
    ) -> Result<Core, Memory>
        requires first { Fits (ranges self.now.space.now) (tree_of a.now) }
        requires second { Fits (ranges self.now.space.now) (tree_of b.now) }
        ensures { IfOk result (λ core. core_tree_of core ≡ joined (not positive) (chain (not positive) bound (core_tree (sizes self.now.space.now) positive (tree_of a.now)) (core_tree (sizes self.now.space.now) positive (tree_of b.now))) (steps positive bound (core_tree (sizes self.now.space.now) positive (tree_of a.now)))) }
    {
        self.weak_chain(
            positive,
            bound,
            &self.core(a, positive)?,
            &self.core(b, positive)?,
        )
    }

    // The core of a sign.
    #[cycle(cores)]
    fn core(&self, formula: &Formula, positive: bool) -> Result<Core, Memory>
        requires { Fits (ranges self.now.space.now) (tree_of formula.now) }
        ensures { IfOk result (λ core. core_tree_of core ≡ core_tree (sizes self.now.space.now) positive (tree_of formula.now)) }
    {
        match formula {
            Formula::True => Ok(constant(positive)),
            Formula::False => Ok(constant(!positive)),
            Formula::Flag(x) => Ok(flag(*x, positive)),
            Formula::Is(x, cmp, value) => Ok(comparison(self.space, *x, *cmp, *value, positive)),
            Formula::Among(x, set) => Ok(among(self.space, *x, *set, positive)),
            Formula::Same(x, cmp, y) => self.sum(*x, signed(*cmp, positive), *y),
            Formula::Not(a) => self.core(a, !positive),
            Formula::And(a, b) => self.joined_of(positive, a, positive, b, positive),
            Formula::Or(a, b) => self.joined_of(!positive, a, positive, b, positive),
            Formula::Implies(a, b) => self.joined_of(!positive, a, !positive, b, positive),
            Formula::Iff(a, b) => self.iff_of(a, b, positive),
            Formula::Entails(a, b) => {
                self.ever(
                    positive,
                    self.joined_of(!positive, a, !positive, b, positive)?,
                )
            }
            Formula::Next(a) => self.after(self.core(a, positive)?),
            Formula::Eventually(a) => self.ever(!positive, self.core(a, positive)?),
            Formula::Always(a) => self.ever(positive, self.core(a, positive)?),
            Formula::Until(a, b) => self.fixed_of(!positive, a, b, positive),
            Formula::Unless(a, b) => self.unless_of(a, b, positive),
            Formula::Release(a, b) => self.fixed_of(positive, a, b, positive),
            Formula::EventuallyWithin(d, a) => self.steps_of(!positive, *d, a, positive),
            Formula::AlwaysWithin(d, a) => self.steps_of(positive, *d, a, positive),
            Formula::UntilWithin(d, a, b) => self.chain_of(!positive, *d, a, b, positive),
            Formula::UnlessWithin(d, a, b) => self.weak_chain_of(*d, a, b, positive),
            Formula::ReleaseWithin(d, a, b) => self.chain_of(positive, *d, a, b, positive),
        }
    }
}

/// The core of a formula, positive or negative: the positive one is true where the formula is, and
/// the negative one where the formula is not, on each ultimately periodic trace of the space. The
/// formula fits the space, and its core has at most 4096 nodes and 1000 levels, as `core_size` and
/// `core_depth` tell. The core fits the space too. Only memory can be wanting.
pub fn core_of(alloc: Global, space: &Space, f: &Formula, positive: bool) -> Result<Core, Memory>
    requires fits { Fits (ranges space.now) (tree_of f.now) }
    requires size { nodes (core_tree (sizes space.now) positive (tree_of f.now)) ≤ 4096 }
    requires depth { levels (core_tree (sizes space.now) positive (tree_of f.now)) ≤ 1000 }
    ensures tree { IfOk result (λ core. core_tree_of core ≡ core_tree (sizes space.now) positive (tree_of f.now)) }
    ensures fits { IfOk result (λ core. CoreFits (ranges space.now) (core_tree_of core)) }
    ensures truth { IfOk result (λ core. (t : Trace) → IsPeriodic (sizes space.now) t → (i : ℕ) → CoreTruth t (core_tree_of core) i ↔ Signed positive (Truth t (tree_of f.now) i)) }
{
    Unfolding { alloc, space }.core(f, positive)
}
