//! Certificates as they are written. The form of a line is changed here and in specs/CertTexts.antt.
//! Each function appends to `out`; where memory runs out, part of its text may have been appended.

ghost use Rattle.std.specs.Prelude.{◌≡◌, ℕ, ◌+◌, ◌-◌, ◌^◌, ◌<◌, ◌≤◌, ◌==◌, false, List, [], ◌∷◌, ◌++◌, OnOk, IfOk, if◌then◌else◌, length, map, codes, All};
ghost use Rattle.std.specs.Fmt.{decimal};
ghost use Rattle.state_space.specs.Spaces.{sizes};
ghost use Rattle.state_space.specs.ValueTexts.{members};
ghost use Rattle.tableau_rules.specs.Turns.{sets_of};
ghost use Rattle.tableau_rules.specs.CertView.{reason_of, cert_node_of, cert_of};
ghost use Rattle.elimination_cert.specs.CertTexts.{joined, list_text, set_text, now_text, reason_text, node_text, first_line, indented_cert, cert_text as text_of_cert, FitsSizes};
ghost use Rattle.tableau_rules.specs.Sets.{numbers_from};
ghost use Rattle.elimination_cert.specs.Endings.{more_texts, numbers_left};

use source_sink::{Memory, put, put_decimal};
use state_space::{Space, Values, VarId};
use std::alloc::Global;
use tableau_rules::{Bits, Cert, CertNode, Reason};

// The comma before a text of a list, but for the first.
fn put_comma(out: &mut Vec<u8>, first: bool) -> Result<(), Memory>
    ensures { OnOk result ((text : List ℕ) (texts : List (List ℕ))
        → (out.new.items ++ text) ++ more_texts false texts ≡ out.old.items ++ more_texts first (text ∷ texts)) }
{
    if !first {
        put(out, b",")?;
    }
    Ok(())
}

// One number more of a list.
fn put_next(out: &mut Vec<u8>, number: u64, first: bool) -> Result<(), Memory>
    ensures { OnOk result ((texts : List (List ℕ))
        → out.new.items ++ more_texts false texts ≡ out.old.items ++ more_texts first (decimal number ∷ texts)) }
{
    put_comma(out, first)?;
    put_decimal(out, number)
}

// The end of a list, which is `-` where nothing came.
fn end_list(out: &mut Vec<u8>, first: bool) -> Result<(), Memory>
    ensures { OnOk result (out.new.items ≡ out.old.items ++ more_texts first []) }
{
    if first {
        put(out, b"-")?;
    }
    Ok(())
}

// The least number of the set that is greater.
fn least_above(set: &Bits, number: u16) -> Option<u16>
    ensures { All (λ y. y < 2 ^ 16) set.now → numbers_left set.now result ≡ numbers_from (number + 1) set.now }
{
    match number.checked_add(1) {
        Some(from) => set.least_from(from),
        None => None,
    }
}

fn put_formulas(out: &mut Vec<u8>, formulas: &Bits) -> Result<(), Memory>
    ensures { OnOk result (out.new.items ≡ out.old.items ++ list_text formulas.now) }
{
    let mut first = true;
    let mut next = formulas.least_from(0);
    'formulas: while let Some(number) = next {
        put_next(out, u64::from(number), first)?;
        first = false;
        next = least_above(formulas, number);
    }
    end_list(out, first)
}

fn put_kids(out: &mut Vec<u8>, kids: &[u32]) -> Result<(), Memory>
    ensures { OnOk result (out.new.items ≡ out.old.items ++ list_text kids.now) }
{
    let mut first = true;
    'kids: for kid in kids {
        put_next(out, u64::from(*kid), first)?;
        first = false;
    }
    end_list(out, first)
}

// One index more of a set.
fn put_value(out: &mut Vec<u8>, value: u8, first: bool) -> Result<(), Memory>
    ensures { OnOk result (out.new.items ≡ out.old.items ++ (if first then decimal value else 43 ∷ decimal value)) }
{
    if !first {
        put(out, b"+")?;
    }
    put_decimal(out, u64::from(value))
}

// The indexes of the set below the size.
fn put_values(out: &mut Vec<u8>, set: Values, size: u8) -> Result<(), Memory>
    requires { size ≤ 64 }
    ensures { OnOk result (out.new.items ≡ out.old.items ++ joined 43 (map decimal (members set.0 size))) }
{
    let mut first = true;
    'values: for value in 0..size {
        if set.contains(value) {
            put_value(out, value, first)?;
            first = false;
        }
    }
    Ok(())
}

fn put_set(out: &mut Vec<u8>, x: u8, size: u8, set: Values) -> Result<(), Memory>
    requires { size ≤ 64 }
    ensures { OnOk result (out.new.items ≡ out.old.items ++ set_text x size set.0) }
{
    put_decimal(out, u64::from(x))?;
    put(out, b"=")?;
    put_values(out, set, size)
}

// The set of a variable, where it is not full. It gives whether the next set is the first.
fn put_variable(
    out: &mut Vec<u8>,
    x: u8,
    size: u8,
    set: Values,
    full: Values,
    first: bool,
) -> Result<bool, Memory>
    requires { size ≤ 64 }
    ensures { IfOk result (λ still. (texts : List (List ℕ))
        → out.new.items ++ more_texts still texts
        ≡ out.old.items ++ more_texts first (if set.0 == full.0 then texts else set_text x size set.0 ∷ texts)) }
{
    if set.0 == full.0 {
        return Ok(first);
    }
    put_comma(out, first)?;
    put_set(out, x, size, set)?;
    Ok(false)
}

fn put_now(out: &mut Vec<u8>, space: &Space, now: &[Values]) -> Result<(), Memory>
    requires { length now.now ≡ length (sizes space.now) }
    ensures { OnOk result (out.new.items ≡ out.old.items ++ now_text (sizes space.now) (sets_of now.now)) }
{
    let full = space.full();
    let mut first = true;
    'variables: for x in 0..space.count() {
        let place = usize::from(x);
        first = put_variable(
            out,
            x,
            space.size_of(VarId(x)),
            now[place],
            full[place],
            first,
        )?;
    }
    end_list(out, first)
}

fn put_reason(out: &mut Vec<u8>, reason: Reason) -> Result<(), Memory>
    ensures { OnOk result (out.new.items ≡ out.old.items ++ reason_text (reason_of reason)) }
{
    match reason {
        Reason::Clash => put(out, b"clash"),
        Reason::Dead => put(out, b"dead"),
        Reason::Wait(until) => {
            put(out, b"wait ")?;
            put_decimal(out, u64::from(until))
        }
    }
}

/// Appends the line of a node that fits the space.
pub(crate) fn put_node(out: &mut Vec<u8>, space: &Space, entry: &CertNode) -> Result<(), Memory>
    requires { length entry.now.node.now.items ≡ length (sizes space.now) }
    ensures { OnOk result (out.new.items ≡ out.old.items ++ node_text (sizes space.now) (cert_node_of entry.entry.now)) }
{
    put_decimal(out, u64::from(entry.mark.rank))?;
    put(out, b" ")?;
    put_reason(out, entry.mark.reason)?;
    put(out, b" todo ")?;
    put_formulas(out, &entry.node.todo)?;
    put(out, b" now ")?;
    put_now(out, space, &entry.node.now)?;
    put(out, b" next ")?;
    put_formulas(out, &entry.node.next)?;
    put(out, b" kids ")?;
    put_kids(out, entry.kids.as_slice())?;
    put(out, b"\n")
}

/// Appends the first line.
pub(crate) fn put_first_line(out: &mut Vec<u8>, count: u64) -> Result<(), Memory>
    ensures { OnOk result (out.new.items ≡ out.old.items ++ first_line count) }
{
    put(out, b"certificate ")?;
    put_decimal(out, count)?;
    put(out, b"\n")
}

// The first line, behind an indent.
fn put_front(out: &mut Vec<u8>, indent: &[u8], count: u64) -> Result<(), Memory>
    ensures { OnOk result (out.new.items ≡ out.old.items ++ indent.now ++ first_line count) }
{
    put(out, indent)?;
    put_first_line(out, count)
}

// The line of a node that fits the space, behind an indent.
fn put_line(out: &mut Vec<u8>, indent: &[u8], space: &Space, entry: &CertNode) -> Result<(), Memory>
    requires { length entry.now.node.now.items ≡ length (sizes space.now) }
    ensures { OnOk result (out.new.items ≡ out.old.items ++ indent.now ++ node_text (sizes space.now) (cert_node_of entry.entry.now)) }
{
    put(out, indent)?;
    put_node(out, space, entry)
}

/// Appends the text of a certificate whose nodes have one set for each variable of the space, with `indent` before each line.
pub fn put_cert(out: &mut Vec<u8>, indent: &[u8], space: &Space, cert: &Cert) -> Result<(), Memory>
    requires { All (λ c. length c.node.now ≡ length (sizes space.now)) (cert_of cert.now) }
    ensures { OnOk result (out.new.items ≡ out.old.items ++ indented_cert indent.now (sizes space.now) (cert_of cert.now)) }
{
    put_front(out, indent, cert.nodes.len() as u64)?;
    'nodes: for entry in &cert.nodes {
        put_line(out, indent, space, entry)?;
    }
    Ok(())
}

/// The text of a certificate whose nodes have one set for each variable of the space: its number of
/// nodes, and a line for each node. Only memory can be wanting.
pub fn cert_text(alloc: Global, space: &Space, cert: &Cert) -> Result<Vec<u8>, Memory>
    requires { All (λ c. length c.node.now ≡ length (sizes space.now)) (cert_of cert.now) }
    ensures { IfOk result (λ text. text.items ≡ text_of_cert (sizes space.now) (cert_of cert.now)) }
{
    let mut out = Vec::new(alloc);
    put_cert(&mut out, b"", space, cert)?;
    Ok(out)
}
