//! The query of a pattern: a trace of its placeholders meets it where it has the subgoals and not the parent. Where none does, each instance
//! of the pattern is complete, as law.rt says.

ghost use Rattle.std.specs.Prelude.{◌≡◌, ◌≤◌, ◌<◌, ◌+◌, ◌++◌, ◌∷◌, [], All, Contains, length, map, replicate, IfOk, OnOk};
ghost use Rattle.state_space.specs.Ranges.{truth_values};
ghost use Rattle.state_space.specs.Spaces.{names, ranges, sizes};
ghost use Rattle.temporal_logic.specs.Trees.{tree_of};
ghost use Rattle.formula_table.specs.SmallLists.{AreSmall};
ghost use Rattle.tableau_rules.specs.Queries.{IsOver};
ghost use Rattle.tableau_rules.specs.QueryView.{cores_in};
ghost use Rattle.pattern_library.specs.Instances.{IsPattern, placeholder_sizes};
ghost use Rattle.pattern_library.specs.Patterns.{pattern_list};
ghost use Rattle.pattern_library.specs.PatternQueries.{pattern_cores};
ghost use Rattle.pattern_library.specs.Views.{pattern_form};

use crate::pattern::Pattern;
use entailment::query_of;
use source_sink::Memory;
use state_space::{AddRefusal, Name, NameRefusal, Range, Space};
use std::alloc::Global;
use tableau_rules::Query;
use temporal_logic::Formula;

// A name has at most so many bytes.
const LETTERS: [u8; 40] = [b'p'; 40];

// A name for a placeholder, which no other number gives: evidence shows none of these.
fn placeholder_name(alloc: Global, number: u8) -> Result<Name, Memory>
    requires { number < 40 }
    ensures { IfOk result (λ n. length n ≡ number + 1) }
{
    match Name::new(alloc, &LETTERS[..number as usize + 1]) {
        Ok(name) => Ok(name),
        Err(NameRefusal::Memory) => Err(Memory),
        Err(NameRefusal::NotAName) => unreachable!(),
    }
}

// A variable that is true or false, of a name that the space has not.
fn push_flag(space: &mut Space, name: Name) -> Result<(), Memory>
    requires new { Contains (names space.old) name → ⊥ }
    requires few { length (names space.old) < 64 }
    ensures names { OnOk result (names space.new ≡ names space.old ++ name ∷ []) }
    ensures ranges { OnOk result (ranges space.new ≡ ranges space.old ++ truth_values ∷ []) }
{
    match space.add(name, Range::Bool) {
        Ok(_) => Ok(()),
        Err(AddRefusal::Memory) => Err(Memory),
        Err(AddRefusal::DuplicateVar) => unreachable!(),
        Err(AddRefusal::BadRange) => unreachable!(),
        Err(AddRefusal::TooManyVars) => unreachable!(),
    }
}

/// The space of so many placeholders, at most 40, each of which is true or false.
pub fn placeholder_space(alloc: Global, count: u8) -> Result<Space, Memory>
    requires { count ≤ 40 }
    ensures ranges { IfOk result (λ s. ranges s ≡ replicate count truth_values) }
    ensures sizes { IfOk result (λ s. sizes s ≡ replicate count 2) }
{
    let mut space = Space::new(alloc);
    'placeholders: for number in 0..count {
        let name = placeholder_name(alloc, number)?;
        push_flag(&mut space, name)?;
    }
    Ok(space)
}

// The subgoals, and behind them the negated parent.
fn broken(alloc: Global, pattern: &Pattern) -> Result<Vec<Formula>, Memory>
    ensures { IfOk result (λ fs. map tree_of fs.items ≡ pattern_list (pattern_form pattern.now)) }
{
    let subgoals = pattern.subgoals.as_slice();
    let mut formulas = Vec::new(alloc);
    'subgoals: for subgoal in subgoals {
        formulas.push(subgoal.clone(alloc)?)?;
    }
    let parent = pattern.parent.clone(alloc)?;
    formulas.push(Formula::Not(Box::new(alloc, parent)?))?;
    Ok(formulas)
}

/// The query that a trace of a pattern's placeholders meets where it has the subgoals and not the parent, and the space of the placeholders.
/// There are at most 40 of them, and the list is small enough to be answered, as those of `library` are.
pub fn pattern_query(alloc: Global, pattern: &Pattern) -> Result<(Space, Query), Memory>
    requires pattern { IsPattern (pattern_form pattern.now) }
    requires few { pattern.now.placeholders ≤ 40 }
    requires small { AreSmall (placeholder_sizes (pattern_form pattern.now)) (pattern_list (pattern_form pattern.now)) }
    ensures ranges { IfOk result (λ q. ranges q.0 ≡ replicate pattern.now.placeholders truth_values) }
    ensures sizes { IfOk result (λ q. sizes q.0 ≡ placeholder_sizes (pattern_form pattern.now)) }
    ensures cores { IfOk result (λ q. cores_in q.1 ≡ pattern_cores (pattern_form pattern.now)) }
    ensures over { IfOk result (λ q. All (IsOver (placeholder_sizes (pattern_form pattern.now))) (cores_in q.1)) }
{
    let space = placeholder_space(alloc, pattern.placeholders)?;
    let list = broken(alloc, pattern)?;
    let query = query_of(alloc, &space, &list)?;
    Ok((space, query))
}
