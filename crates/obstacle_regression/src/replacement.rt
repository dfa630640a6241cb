//! Replacing a subformula of a core, and when one core gives another.

ghost use Rattle.std.specs.Prelude.{◌≡◌, IfOk};
ghost use Rattle.bound_unfolding.specs.CoreView.{core_tree_of};
ghost use Rattle.formula_table.specs.Closures as closures;
ghost use Rattle.obstacle_regression.specs.Replacements as replacements;

use bound_unfolding::Core;
use source_sink::Memory;
use std::alloc::Global;

/// Whether the two are the same core.
pub(crate) fn is_same(a: &Core, b: &Core) -> bool
    ensures same { result ≡ closures.is_same (core_tree_of a.now) (core_tree_of b.now) }
{
    a.is_same(b)
}

// Whether the two are literals of one variable, the set of the first inside that of the second.
fn is_inside(a: &Core, b: &Core) -> bool
    ensures inside { result ≡ replacements.is_inside (core_tree_of a.now) (core_tree_of b.now) }
{
    match (a, b) {
        (Core::Lit(x, s), Core::Lit(y, u)) => x.0 == y.0 && s.0 & u.0 == s.0,
        _ => false,
    }
}

/// Whether the first is the second, or a literal inside it.
pub(crate) fn gives(a: &Core, b: &Core) -> bool
    ensures gives { result ≡ replacements.gives (core_tree_of a.now) (core_tree_of b.now) }
{
    is_same(a, b) || is_inside(a, b)
}

/// The core with another in place of each occurrence of an old one.
#[cycle(replaced)]
pub(crate) fn replaced(alloc: Global, core: &Core, old: &Core, new: &Core) -> Result<Core, Memory>
    ensures tree { IfOk result (λ c. core_tree_of c ≡ replacements.replaced (core_tree_of old.now) (core_tree_of new.now) (core_tree_of core.now)) }
{
    if is_same(core, old) {
        return new.clone(alloc);
    }
    match core {
        Core::True => Ok(Core::True),
        Core::False => Ok(Core::False),
        Core::Lit(x, set) => Ok(Core::Lit(*x, *set)),
        Core::And(a, b) => Ok(Core::And(boxed(alloc, a, old, new)?, boxed(alloc, b, old, new)?)),
        Core::Or(a, b) => Ok(Core::Or(boxed(alloc, a, old, new)?, boxed(alloc, b, old, new)?)),
        Core::Next(a) => Ok(Core::Next(boxed(alloc, a, old, new)?)),
        Core::Until(a, b) => Ok(Core::Until(
            boxed(alloc, a, old, new)?,
            boxed(alloc, b, old, new)?,
        )),
        Core::Release(a, b) => {
            Ok(Core::Release(boxed(alloc, a, old, new)?, boxed(alloc, b, old, new)?))
        }
    }
}

// The operand with the other in place of each occurrence of the old one, in a place of its own.
#[cycle(replaced)]
fn boxed(alloc: Global, core: &Core, old: &Core, new: &Core) -> Result<Box<Core>, Memory>
    ensures tree { IfOk result (λ c. core_tree_of c.value ≡ replacements.replaced (core_tree_of old.now) (core_tree_of new.now) (core_tree_of core.now)) }
{
    Ok(Box::new(alloc, replaced(alloc, core, old, new)?)?)
}
