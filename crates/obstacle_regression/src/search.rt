//! The search for candidates, level by level.

ghost use Rattle.std.specs.Prelude.{◌≡◌, ◌++◌, map, drop, flat_map, OnOk, IfOk, IsTrue, List, [], true, false};
ghost use Rattle.std.specs.List.{list_any, list_all};
ghost use Rattle.bound_unfolding.specs.CoreForm.{CoreForm};
ghost use Rattle.bound_unfolding.specs.CoreView.{core_tree_of};
ghost use Rattle.formula_table.specs.Closures as closures;
ghost use Rattle.formula_table.specs.Tables.{IsSubformula};
ghost use Rattle.obstacle_regression.specs.Candidates.{is_small};

use crate::candidate::Candidate;
use crate::extent::extent_replaced;
use crate::parts::parts_of;
use crate::regression::Regressed;
use crate::replacement::replaced;
use crate::rule::{Rule, Side};
use bound_unfolding::Core;
use source_sink::Memory;
use std::alloc::Global;

// The most candidates that are listed.
const MOST: usize = 200;

/// A search under way: the candidates so far, each of which is small with `beside` nodes more, and whether one was left out.
#[derive(Drop)]
pub(crate) struct Search {
    candidates: Vec<Candidate>,
    more: bool,
    beside: u64,
    ghost small: { IsTrue (list_all (λ c. is_small beside (core_tree_of c.core)) candidates.items) },
}

impl Search {
    ghost use Rattle.obstacle_regression.specs.Replacements as replacements;
    ghost use Rattle.obstacle_regression.specs.Candidates.{given_for, given_by, with_candidate, with_candidates, with_levels};
    ghost use Rattle.obstacle_regression.specs.Views.{side_core, rule_of, candidate_core, search_of, regressed_of};

    /// A search that has found nothing so far.
    pub(crate) fn new(alloc: Global, beside: u64) -> Search
        ensures none { search_of result ≡ record { list = []; more = false } }
        ensures beside { result.beside ≡ beside }
    {
        Search {
            candidates: Vec::new(alloc),
            more: false,
            beside,
        }
    }

    // Whether the core is listed.
    fn has(&self, core: &Candidate) -> bool
        ensures { result ≡ list_any (λ listed. closures.is_same (candidate_core core.now) (candidate_core listed)) self.now.candidates.items }
    {
        self.candidates.iter().any(|listed| core.is_same(listed))
    }

    /// A small core, which comes last where it is not listed and there are fewer than 200.
    pub(crate) fn take(&mut self, core: Core) -> Result<(), Memory>
        requires small { IsTrue (is_small self.old.beside (core_tree_of core)) }
        ensures taken { OnOk result (search_of self.new ≡ with_candidate self.old.beside (search_of self.old) (core_tree_of core)) }
        ensures beside { self.new.beside ≡ self.old.beside }
    {
        let candidate = Candidate::new(core);
        if self.has(&candidate) {
            return Ok(());
        }
        if self.candidates.len() >= MOST {
            self.more = true;
            return Ok(());
        }
        self.candidates.push(candidate)?;
        Ok(())
    }

    // The core with a rule's cause in place of a part of it.
    fn offer(
        &mut self,
        alloc: Global,
        core: &Core,
        part: &Core,
        cause: &Side<'_>,
    ) -> Result<(), Memory>
        requires part { IsSubformula (core_tree_of part.now) (core_tree_of core.now) }
        ensures taken { OnOk result (search_of self.new ≡ with_candidate self.old.beside (search_of self.old) (replacements.replaced (core_tree_of part.now) (side_core cause.now) (core_tree_of core.now))) }
        ensures beside { self.new.beside ≡ self.old.beside }
    {
        let extent = extent_replaced(core, part, cause.extent);
        if !extent.is_small(self.beside) {
            self.more = true;
            return Ok(());
        }
        match &cause.core {
            Some(cause) => {
                let given = replaced(alloc, core, part, cause)?;
                self.take(given)
            }
            None => {
                self.more = true;
                Ok(())
            }
        }
    }

    // Whether no core changes the search any more.
    fn is_settled(&self) -> bool
        ensures { (cores : List CoreForm) → result ≡ true → with_candidates self.now.beside (search_of self.now) cores ≡ search_of self.now }
    {
        self.more && self.candidates.len() >= MOST
    }

    // What each rule gives of the core for a part of it.
    fn offer_rules(
        &mut self,
        alloc: Global,
        core: &Core,
        part: &Core,
        rules: &[Rule<'_>],
    ) -> Result<(), Memory>
        requires part { IsSubformula (core_tree_of part.now) (core_tree_of core.now) }
        requires small { is_small 0 (core_tree_of core.now) ≡ true }
        ensures taken { OnOk result (search_of self.new ≡ with_candidates self.old.beside (search_of self.old) (given_for (map rule_of rules.now) (core_tree_of core.now) (core_tree_of part.now))) }
        ensures beside { self.new.beside ≡ self.old.beside }
    {
        'rules: for rule in rules {
            if self.is_settled() {
                return Ok(());
            }
            if rule.effect.gives(part) {
                self.offer(alloc, core, part, &rule.cause)?;
            }
        }
        Ok(())
    }

    // What the rules give of the core for each of its parts.
    fn offer_parts(&mut self, alloc: Global, core: &Core, rules: &[Rule<'_>]) -> Result<(), Memory>
        requires small { is_small 0 (core_tree_of core.now) ≡ true }
        ensures taken { OnOk result (search_of self.new ≡ with_candidates self.old.beside (search_of self.old) (given_by (map rule_of rules.now) (core_tree_of core.now))) }
        ensures beside { self.new.beside ≡ self.old.beside }
    {
        let list = parts_of(alloc, core)?;
        let parts = list.as_slice();
        'parts: for part in parts {
            self.offer_rules(alloc, core, part, rules)?;
        }
        Ok(())
    }

    // What the rules give of each candidate from a place on, as far as the list goes now.
    fn offer_level(&mut self, alloc: Global, rules: &[Rule<'_>], from: usize) -> Result<(), Memory>
        ensures taken { OnOk result (search_of self.new ≡ with_candidates self.old.beside (search_of self.old) (flat_map (given_by (map rule_of rules.now)) (drop from (search_of self.old).list))) }
        ensures beside { self.new.beside ≡ self.old.beside }
    {
        let end = self.candidates.len();
        'level: for place in from..end {
            let core = self.candidates[place].core.clone(alloc)?;
            self.offer_parts(alloc, &core, rules)?;
        }
        Ok(())
    }

    /// What the rules give level by level, so many times: of the candidates so far, then of those that came by that, and so on.
    pub(crate) fn offer_levels(
        &mut self,
        alloc: Global,
        rules: &[Rule<'_>],
        depth: u8,
    ) -> Result<(), Memory>
        ensures { OnOk result (search_of self.new ≡ with_levels (record { rules = map rule_of rules.now; beside = self.old.beside }) depth 0 (search_of self.old)) }
    {
        let mut from = 0;
        'levels: for _level in 0..depth {
            let end = self.candidates.len();
            self.offer_level(alloc, rules, from)?;
            from = end;
        }
        Ok(())
    }

    /// What the search has found.
    pub(crate) fn finish(self, alloc: Global) -> Result<Regressed, Memory>
        ensures { IfOk result (λ r. regressed_of r ≡ search_of self) }
    {
        let more = self.more;
        let mut list = Vec::with_capacity(alloc, self.candidates.len())?;
        'candidates: for candidate in self.candidates {
            list.push(candidate.core)?;
        }
        Ok(Regressed { list, more })
    }
}
