//! The texts of reports in each form, in the order in which a report has its lines. The bytes are those of specs/ReportTexts.antt, which
//! every reader of a report relies on.

ghost use Rattle.std.specs.Prelude.{◌≡◌, ◌<◌, ◌++◌, [], codes, decimal, length, slice_index_or, All, OnOk, IfOk};
ghost use Rattle.std.specs.List.{flat_map};
ghost use Rattle.state_space.specs.Spaces.{names, ranges, sizes};
ghost use Rattle.tableau_rules.specs.CertView.{cert_of};
ghost use Rattle.goal_model.specs.Models.{sizes_of};
ghost use Rattle.goal_model.specs.ModelViews.{model_of};
ghost use Rattle.verdict_report.specs.declared.form.Form.TheVariants.{Full, Brief, Lines};
ghost use Rattle.elimination_cert.specs.CertTexts.{indented_cert};
ghost use Rattle.pattern_library.specs.Patterns.{pattern_of};
ghost use Rattle.pattern_library.specs.Instances.{placeholder_sizes};
ghost use Rattle.verdict_report.specs.Fitting.{CertFits, EvidenceFits};
ghost use Rattle.verdict_report.specs.ReportTexts.{verdict_text, highest_rank as highest_rank_of, summary_text, evidence_text, remark_text, entry_text, total_text, report_text as text_of_report};

use crate::form::Form;
use crate::lasso_text::put_lasso;
use crate::report::{Entry, Evidence, Report, Verdict};
use crate::totals::{Totals, counts};
use agent_capabilities::Cover;
use elimination_cert::put_cert;
use goal_model::{Model, PatternKind, label_text};
use pattern_library::{library, pattern_name, placeholder_space};
use source_sink::{Memory, put, put_decimal};
use state_space::{Space, VarId};
use std::alloc::Global;
use tableau_rules::Cert;

fn highest_rank(cert: &Cert) -> u32
    ensures { result ≡ highest_rank_of (cert_of cert.now) }
{
    let mut highest = 0;
    'nodes: for node in &cert.nodes {
        highest = highest.max(node.mark.rank);
    }
    highest
}

// How large a certificate is, in a line.
fn put_summary(out: &mut Vec<u8>, cert: &Cert) -> Result<(), Memory>
    ensures { OnOk result (out.new.items ≡ out.old.items ++ summary_text (cert_of cert.now)) }
{
    put(out, b"  certificate of ")?;
    put_decimal(out, cert.nodes.len() as u64)?;
    put(out, b" nodes, highest rank ")?;
    put_decimal(out, u64::from(highest_rank(cert)))?;
    put(out, b"\n")
}

// The certificate of a pattern, which is over its placeholders.
fn put_pattern_cert(
    alloc: Global,
    out: &mut Vec<u8>,
    kind: PatternKind,
    cert: &Cert,
) -> Result<(), Memory>
    requires { CertFits (placeholder_sizes (pattern_of kind)) cert.now }
    ensures { OnOk result (out.new.items ≡ out.old.items ++ indented_cert (codes "  ") (placeholder_sizes (pattern_of kind)) (cert_of cert.now)) }
{
    let pattern = library(alloc, kind)?;
    let space = placeholder_space(alloc, pattern.placeholders)?;
    put_cert(out, b"  ", &space, cert)
}

fn put_evidence(
    alloc: Global,
    out: &mut Vec<u8>,
    form: Form,
    space: &Space,
    evidence: &Evidence,
) -> Result<(), Memory>
    requires { EvidenceFits (sizes space.now) evidence.now }
    ensures { OnOk result (out.new.items ≡ out.old.items ++ evidence_text form (names space.now) (ranges space.now) evidence.now) }
{
    match (form, evidence) {
        (Form::Full, Evidence::Elimination(cert)) => put_cert(out, b"  ", space, cert),
        (Form::Full, Evidence::ByPattern(kind, cert)) => put_pattern_cert(alloc, out, *kind, cert),
        (Form::Brief, Evidence::Elimination(cert) | Evidence::ByPattern(_, cert)) => {
            put_summary(out, cert)
        }
        (Form::Full | Form::Brief, Evidence::Trace(lasso)) => put_lasso(out, space, lasso),
        _ => Ok(()),
    }
}

// The variable that an agent lacks, and how.
fn put_lack(out: &mut Vec<u8>, space: &Space, x: VarId, how: &[u8]) -> Result<(), Memory>
    requires { x.0 < length (names space.now) }
    ensures { OnOk result (out.new.items ≡ out.old.items ++ (codes ", " ++ slice_index_or (names space.now) x.0 [] ++ how.now)) }
{
    put(out, b", ")?;
    put(out, space.name_of(x).bytes())?;
    put(out, how)
}

// The pattern that decides, or what the agent of an assignment lacks, if the evidence tells it.
fn put_remark(out: &mut Vec<u8>, space: &Space, evidence: &Evidence) -> Result<(), Memory>
    requires { EvidenceFits (sizes space.now) evidence.now }
    ensures { OnOk result (out.new.items ≡ out.old.items ++ remark_text (names space.now) evidence.now) }
{
    match evidence {
        Evidence::ByPattern(kind, _) => {
            put(out, b" by ")?;
            put(out, pattern_name(*kind))
        }
        Evidence::Offending(Cover::NotMonitored(x)) => put_lack(out, space, *x, b" not monitored"),
        Evidence::Offending(Cover::NotControlled(x)) => {
            put_lack(out, space, *x, b" not controlled")
        }
        _ => Ok(()),
    }
}

fn put_verdict(out: &mut Vec<u8>, verdict: Verdict) -> Result<(), Memory>
    ensures { OnOk result (out.new.items ≡ out.old.items ++ verdict_text verdict) }
{
    match verdict {
        Verdict::Holds => put(out, b"holds"),
        Verdict::Fails => put(out, b"fails"),
        Verdict::Withheld(number) => {
            put(out, b"withheld at ")?;
            put_decimal(out, u64::from(number))
        }
    }
}

#[tactic(auto, unfolding(crate::specs::ReportTexts::entry_text))]
fn put_entry(
    alloc: Global,
    out: &mut Vec<u8>,
    form: Form,
    space: &Space,
    entry: &Entry,
) -> Result<(), Memory>
    requires { EvidenceFits (sizes space.now) entry.now.evidence }
    ensures { OnOk result (out.new.items ≡ out.old.items ++ entry_text form (names space.now) (ranges space.now) entry.now) }
{
    put(out, &label_text(alloc, &entry.label)?)?;
    put(out, b": ")?;
    put_verdict(out, entry.verdict)?;
    put_remark(out, space, &entry.evidence)?;
    put(out, b"\n")?;
    put_evidence(alloc, out, form, space, &entry.evidence)
}

fn put_entries(
    alloc: Global,
    out: &mut Vec<u8>,
    form: Form,
    space: &Space,
    entries: &[Entry],
) -> Result<(), Memory>
    requires { All (λ e. EvidenceFits (sizes space.now) e.evidence) entries.now }
    ensures { OnOk result (out.new.items ≡ out.old.items ++ flat_map (entry_text form (names space.now) (ranges space.now)) entries.now) }
{
    'entries: for entry in entries {
        put_entry(alloc, out, form, space, entry)?;
    }
    Ok(())
}

#[tactic(auto, unfolding(crate::specs::ReportTexts::total_text))]
fn put_total(out: &mut Vec<u8>, totals: Totals) -> Result<(), Memory>
    ensures { OnOk result (out.new.items ≡ out.old.items ++ total_text totals.held totals.failed totals.withheld) }
{
    put(out, b"total: ")?;
    put_decimal(out, totals.held)?;
    put(out, b" hold, ")?;
    put_decimal(out, totals.failed)?;
    put(out, b" fail, ")?;
    put_decimal(out, totals.withheld)?;
    put(out, b" withheld\n")
}

// The text of a report over a space.
#[tactic(auto, unfolding(crate::specs::ReportTexts::report_text))]
fn text_over(alloc: Global, form: Form, space: &Space, report: &Report) -> Result<Vec<u8>, Memory>
    requires { All (λ e. EvidenceFits (sizes space.now) e.evidence) report.now.entries.items }
    ensures { IfOk result (λ out. out.items ≡ text_of_report form (names space.now) (ranges space.now) report.now) }
{
    let mut out = Vec::new(alloc);
    put(&mut out, b"kaos report 1 budget ")?;
    put_decimal(&mut out, u64::from(report.budget))?;
    put(&mut out, b"\n")?;
    put_entries(alloc, &mut out, form, space, &report.entries)?;
    put_total(&mut out, counts(report))?;
    Ok(out)
}

/// The text of a report on a model, in a form. The evidence of each entry is over the model's variables.
pub fn form_text(
    alloc: Global,
    form: Form,
    model: &Model,
    report: &Report,
) -> Result<Vec<u8>, Memory>
    requires { All (λ e. EvidenceFits (sizes_of (model_of model.now)) e.evidence) report.now.entries.items }
    ensures { IfOk result (λ out. out.items ≡ text_of_report form (model_of model.now).names (model_of model.now).ranges report.now) }
{
    text_over(alloc, form, model.space(), report)
}

/// The text of a report on a model with all evidence, which is over the model's variables.
pub fn report_text(alloc: Global, model: &Model, report: &Report) -> Result<Vec<u8>, Memory>
    requires { All (λ e. EvidenceFits (sizes_of (model_of model.now)) e.evidence) report.now.entries.items }
    ensures { IfOk result (λ out. out.items ≡ text_of_report Full (model_of model.now).names (model_of model.now).ranges report.now) }
{
    form_text(alloc, Form::Full, model, report)
}

/// The text of a report on a model with its lassos, which are over the model's variables, and how large its certificates are.
pub fn brief_text(alloc: Global, model: &Model, report: &Report) -> Result<Vec<u8>, Memory>
    requires { All (λ e. EvidenceFits (sizes_of (model_of model.now)) e.evidence) report.now.entries.items }
    ensures { IfOk result (λ out. out.items ≡ text_of_report Brief (model_of model.now).names (model_of model.now).ranges report.now) }
{
    form_text(alloc, Form::Brief, model, report)
}

/// The text of a report on a model without evidence.
pub fn lines_text(alloc: Global, model: &Model, report: &Report) -> Result<Vec<u8>, Memory>
    requires { All (λ e. EvidenceFits (sizes_of (model_of model.now)) e.evidence) report.now.entries.items }
    ensures { IfOk result (λ out. out.items ≡ text_of_report Lines (model_of model.now).names (model_of model.now).ranges report.now) }
{
    form_text(alloc, Form::Lines, model, report)
}
