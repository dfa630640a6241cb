//! The first item that is too large to be answered. No list of formulas is built: where the weights of an item's parts do not tell that it is
//! small, the parts are measured one after the other.

ghost use Rattle.std.specs.Prelude.{◌≡◌, ◌<◌, ◌++◌, ◌∷◌, [], true, List, All, map, length, slice_index_or, MatchOption, IfOk, OnOk};
ghost use Rattle.state_space.specs.Spaces.{sizes};
ghost use Rattle.temporal_logic.specs.Ltl.{Ltl};
ghost use Rattle.goal_model.specs.Models.{ModelForm, contents_of, PartsFit};
ghost use Rattle.goal_model.specs.Items.{ItemForm, part_formula, signed, list_of, label_of, item_of, domain_item, no_link, link_items_of, items_from, is_small_item};
ghost use Rattle.goal_model.specs.KnownParts.{PartIsOf, IsLinkItem};
ghost use Rattle.goal_model.specs.Resolution.{made, refuses, too_large, sized};
ghost use Rattle.goal_model.specs.Outcomes.{sized_all};
ghost use Rattle.goal_model.specs.declared.refusal.RefusalKind.TheVariants.{TooLarge};
ghost use Rattle.goal_model.specs.Sizes.{Measures};
ghost use Rattle.goal_model.specs.Sizers.{IsReady};
ghost use Rattle.goal_model.specs.SmallLists.{is_small_list};
ghost use Rattle.goal_model.specs.declared.contents.Contents.{Contents};
ghost use Rattle.formula_table.specs.Tables.{closure_in, IsKept};

use crate::contents::Contents;
use crate::demand::formula_of;
use crate::item::{Item, Label, Part, items_of_link};
use crate::list_size::Measured;
use crate::part_weight::PartWeights;
use source_sink::Memory;
use state_space::Name;
use std::alloc::Global;

/// The statement and the name that a demand too large is refused with.
#[derive(Debug, Drop)]
pub(crate) struct Blamed {
    pub(crate) statement: u32,
    pub(crate) name: Name,
}

/// What is known of sizes before items are looked at.
#[derive(Drop)]
pub(crate) struct Sizer {
    // What the parts weigh.
    pub(crate) weights: PartWeights,
    // The domain properties, measured.
    pub(crate) domains: Measured,
}

// The domain properties, measured.
fn measured_domains(alloc: Global, contents: &Contents) -> Result<Measured, Memory>
    requires { PartsFit (contents_of contents.now) }
    ensures { IfOk result (Measures (sizes contents.now.space) (map (λ p. p.formula) (contents_of contents.now).domains)) }
{
    let mut measured = Measured::none(alloc);
    'domains: for property in &contents.domains {
        measured.add(&contents.space, &property.formula, true)?;
    }
    Ok(measured)
}

impl Sizer {
    fn of_contents(alloc: Global, contents: &Contents) -> Result<Sizer, Memory>
        requires { PartsFit (contents_of contents.now) }
        ensures { IfOk result (IsReady contents.now) }
    {
        Ok(Sizer {
            weights: PartWeights::of_contents(alloc, contents)?,
            domains: measured_domains(alloc, contents)?,
        })
    }
}

// The list has one part more.
fn add_part(
    alloc: Global,
    contents: &Contents,
    measured: &mut Measured,
    part: Part,
    positive: bool,
) -> Result<(), Memory>
    requires fit { PartsFit (contents_of contents.now) }
    requires known { PartIsOf (contents_of contents.now) part }
    ensures more { OnOk result ((list : List Ltl) → Measures (sizes contents.now.space) list measured.old → Measures (sizes contents.now.space) (list ++ signed positive (part_formula (contents_of contents.now) part) ∷ []) measured.new) }
    ensures kept { OnOk result (IsKept (closure_in measured.old.table) (closure_in measured.new.table)) }
{
    let formula = formula_of(alloc, contents, part)?;
    measured.add(&contents.space, &formula, positive)
}

// The parts of an item behind the domain properties.
fn add_parts(
    alloc: Global,
    contents: &Contents,
    measured: &mut Measured,
    parts: &[(Part, bool)],
) -> Result<(), Memory>
    requires fit { PartsFit (contents_of contents.now) }
    requires known { All (λ p. PartIsOf (contents_of contents.now) p.0) parts.now }
    requires domains { Measures (sizes contents.now.space) (map (λ p. p.formula) (contents_of contents.now).domains) measured.old }
    ensures measured { OnOk result (Measures (sizes contents.now.space) (list_of (contents_of contents.now) parts.now) measured.new) }
    ensures kept { OnOk result (IsKept (closure_in measured.old.table) (closure_in measured.new.table)) }
{
    'parts: for (part, positive) in parts {
        add_part(alloc, contents, measured, *part, *positive)?;
    }
    Ok(())
}

// Whether the list of an item is small enough. The domain properties are measured once for all items: what comes behind them is forgotten
// again.
fn is_measured_small(
    alloc: Global,
    contents: &Contents,
    domains: &mut Measured,
    parts: &[(Part, bool)],
) -> Result<bool, Memory>
    requires fit { PartsFit (contents_of contents.now) }
    requires known { All (λ p. PartIsOf (contents_of contents.now) p.0) parts.now }
    requires domains { Measures (sizes contents.now.space) (map (λ p. p.formula) (contents_of contents.now).domains) domains.old }
    ensures small { IfOk result (λ b. b ≡ is_small_list (sizes contents.now.space) (list_of (contents_of contents.now) parts.now)) }
    ensures domains { OnOk result (Measures (sizes contents.now.space) (map (λ p. p.formula) (contents_of contents.now).domains) domains.new) }
{
    let mark = domains.mark();
    add_parts(alloc, contents, domains, parts)?;
    let is_small = domains.is_small();
    domains.back(mark);
    Ok(is_small)
}

// Whether the weights of an item's parts tell that its list is small enough.
fn is_light(sizer: &Sizer, parts: &[(Part, bool)]) -> bool
    ensures { (c : Contents) → IsReady c sizer.now → All (λ p. PartIsOf (contents_of c) p.0) parts.now → result ≡ true → is_small_list (sizes c.space) (list_of (contents_of c) parts.now) ≡ true }
{
    sizer.weights.total(sizer.domains.total(), parts) <= 4096
}

// Whether an item asks for no trace, or its list is small enough.
fn is_small(
    alloc: Global,
    contents: &Contents,
    sizer: &mut Sizer,
    item: &Item,
) -> Result<bool, Memory>
    requires fit { PartsFit (contents_of contents.now) }
    requires known { All (λ p. PartIsOf (contents_of contents.now) p.0) (item_of item.now).parts }
    requires ready { IsReady contents.now sizer.old }
    ensures small { IfOk result (λ b. b ≡ is_small_item (contents_of contents.now) (item_of item.now)) }
    ensures ready { OnOk result (IsReady contents.now sizer.new) }
{
    if item.wanted.is_none() {
        return Ok(true);
    }
    if is_light(sizer, &item.parts) {
        return Ok(true);
    }
    is_measured_small(alloc, contents, &mut sizer.domains, &item.parts)
}

// The statement and the first name of a label that has one.
fn blame(alloc: Global, label: &Label) -> Result<Blamed, Memory>
    requires { 0 < length label.now.names.items }
    ensures { (m : ModelForm) → IfOk result (λ b. too_large m (label_of label.now) ≡ refuses TooLarge b.statement b.name) }
{
    Ok(Blamed {
        statement: label.statement,
        name: label.names[0].clone(alloc)?,
    })
}

// What the first item that is too large is refused with.
fn first_large_item(
    alloc: Global,
    contents: &Contents,
    sizer: &mut Sizer,
    items: &[Item],
) -> Result<Option<Blamed>, Memory>
    requires fit { PartsFit (contents_of contents.now) }
    requires known { All (IsLinkItem (contents_of contents.now)) (map item_of items.now) }
    requires ready { IsReady contents.now sizer.old }
    ensures first { (others : List ItemForm) → IfOk result (λ o. MatchOption o (sized (contents_of contents.now) (map item_of items.now ++ others) ≡ sized (contents_of contents.now) others)
        (λ b. sized (contents_of contents.now) (map item_of items.now ++ others) ≡ refuses TooLarge b.statement b.name)) }
    ensures ready { OnOk result (IsReady contents.now sizer.new) }
{
    'items: for item in items {
        if !is_small(alloc, contents, sizer, item)? {
            return Ok(Some(blame(alloc, &item.label)?));
        }
    }
    Ok(None)
}

// What the first item of a link that is too large is refused with.
fn first_large_of_link(
    alloc: Global,
    contents: &Contents,
    sizer: &mut Sizer,
    place: usize,
) -> Result<Option<Blamed>, Memory>
    requires fit { PartsFit (contents_of contents.now) }
    requires known { place < length (contents_of contents.now).links }
    requires ready { IsReady contents.now sizer.old }
    ensures first { (others : List ItemForm) →
        IfOk result (λ o. MatchOption o (sized (contents_of contents.now) (link_items_of (contents_of contents.now) place (slice_index_or (contents_of contents.now).links place no_link) ++ others) ≡ sized (contents_of contents.now) others)
        (λ b. sized (contents_of contents.now) (link_items_of (contents_of contents.now) place (slice_index_or (contents_of contents.now).links place no_link) ++ others) ≡ refuses TooLarge b.statement b.name)) }
    ensures ready { OnOk result (IsReady contents.now sizer.new) }
{
    let items = items_of_link(alloc, contents, place, &contents.links[place])?;
    first_large_item(alloc, contents, sizer, &items)
}

// What the domain properties are refused with where they are too large.
fn large_domains(
    alloc: Global,
    contents: &Contents,
    domains: &Measured,
) -> Result<Option<Blamed>, Memory>
    requires domains { Measures (sizes contents.now.space) (map (λ p. p.formula) (contents_of contents.now).domains) domains.now }
    ensures { (others : List ItemForm) → IfOk result (λ o. MatchOption o (sized (contents_of contents.now) (domain_item ∷ others) ≡ sized (contents_of contents.now) others)
        (λ b. sized (contents_of contents.now) (domain_item ∷ others) ≡ refuses TooLarge b.statement b.name)) }
{
    if domains.is_small() {
        return Ok(None);
    }
    let first = &contents.domains[0];
    Ok(Some(Blamed {
        statement: first.statement,
        name: first.name.clone(alloc)?,
    }))
}

// What the first item of all links that is too large is refused with.
fn first_large_link(
    alloc: Global,
    contents: &Contents,
    sizer: &mut Sizer,
) -> Result<Option<Blamed>, Memory>
    requires fit { PartsFit (contents_of contents.now) }
    requires ready { IsReady contents.now sizer.old }
    ensures { IfOk result (λ o. MatchOption o (sized (contents_of contents.now) (items_from (contents_of contents.now) 0 (contents_of contents.now).links) ≡ made (contents_of contents.now))
        (λ b. sized (contents_of contents.now) (items_from (contents_of contents.now) 0 (contents_of contents.now).links) ≡ refuses TooLarge b.statement b.name)) }
{
    'links: for place in 0..contents.links.len() {
        if let Some(blamed) = first_large_of_link(alloc, contents, sizer, place)? {
            return Ok(Some(blamed));
        }
    }
    Ok(None)
}

/// The statement and the name of the first item that is too large: those of its link, or of the first domain property.
pub(crate) fn first_large(alloc: Global, contents: &Contents) -> Result<Option<Blamed>, Memory>
    requires { PartsFit (contents_of contents.now) }
    ensures { IfOk result (λ o. MatchOption o (sized_all (contents_of contents.now) ≡ made (contents_of contents.now)) (λ b. sized_all (contents_of contents.now) ≡ refuses TooLarge b.statement b.name)) }
{
    let mut sizer = Sizer::of_contents(alloc, contents)?;
    match large_domains(alloc, contents, &sizer.domains)? {
        Some(blamed) => Ok(Some(blamed)),
        None => first_large_link(alloc, contents, &mut sizer),
    }
}
