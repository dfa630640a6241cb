//! Certificates that are read, line by line. Each line is guessed, and counts where the guess is
//! written with the same bytes, so that only the writer says what a well formed line is.

ghost use Rattle.std.specs.Prelude.{◌≡◌, ℕ, ◌<◌, ◌≤◌, ◌^◌, ◌++◌, IfOk, IfErr, IfSome, IfNone, MatchOption, length, map, take, drop, All, Contains};
ghost use Rattle.state_space.specs.Spaces.{sizes};
ghost use Rattle.tableau_rules.specs.Certificates.{CertNodeForm};
ghost use Rattle.tableau_rules.specs.CertView.{cert_node_of, cert_of};
ghost use Rattle.elimination_cert.specs.CertTexts.{first_line, node_text, FitsSizes};
ghost use Rattle.elimination_cert.specs.Readings.{IsLine, Spells, Refuses};
ghost use Rattle.elimination_cert.specs.Lines.{HasNoNode};

use crate::guess::{count_in, guessed_node, place_of};
use crate::refusal::CertRefusal;
use crate::text::{put_first_line, put_node};
use source_sink::Memory;
use state_space::Space;
use std::alloc::Global;
use tableau_rules::{Cert, CertNode};

// How long the first line is, with its line feed.
fn line_len(bytes: &[u8]) -> Option<usize>
    ensures line { IfSome result (λ n. (0 < n) × (n ≤ length bytes.now) × IsLine (take n bytes.now)) }
    ensures none { IfNone result (¬ (Contains bytes.now 10)) }
{
    match place_of(bytes, b'\n') {
        Some(end) => Some(end + 1),
        None => None,
    }
}

// The number of nodes of a first line, if it is one.
fn read_count(alloc: Global, line: &[u8]) -> Result<Option<u32>, Memory>
    ensures { IfOk result (λ count. MatchOption count ((n : ℕ) → n < 2 ^ 32 → ¬ (line.now ≡ first_line n)) (λ n. line.now ≡ first_line n)) }
{
    let count = count_in(line);
    let mut first = Vec::new(alloc);
    put_first_line(&mut first, u64::from(count))?;
    if first.as_slice() == line {
        Ok(Some(count))
    } else {
        Ok(None)
    }
}

// The node of a line, if it is the line of a node.
fn read_node(alloc: Global, space: &Space, line: &[u8]) -> Result<Option<CertNode>, Memory>
    ensures { IfOk result (λ entry. MatchOption entry
        ((c : CertNodeForm) → FitsSizes (sizes space.now) c → ¬ (line.now ≡ node_text (sizes space.now) c))
        (λ e. FitsSizes (sizes space.now) (cert_node_of e) × (line.now ≡ node_text (sizes space.now) (cert_node_of e)))) }
{
    let entry = guessed_node(alloc, space, line)?;
    let mut text = Vec::new(alloc);
    put_node(&mut text, space, &entry)?;
    if text.as_slice() == line {
        Ok(Some(entry))
    } else {
        Ok(None)
    }
}

// The node of the first line, and how long that line is.
fn next_node(
    alloc: Global,
    space: &Space,
    bytes: &[u8],
) -> Result<Option<(CertNode, usize)>, Memory>
    ensures { IfOk result (λ entry. MatchOption entry (HasNoNode (sizes space.now) bytes.now)
        (λ e. FitsSizes (sizes space.now) (cert_node_of e.0) × (0 < e.1) × (e.1 ≤ length bytes.now)
        × (take e.1 bytes.now ≡ node_text (sizes space.now) (cert_node_of e.0)))) }
{
    let len = match line_len(bytes) {
        Some(len) => len,
        None => return Ok(None),
    };
    match read_node(alloc, space, &bytes[..len])? {
        Some(entry) => Ok(Some((entry, len))),
        None => Ok(None),
    }
}

// The nodes of a certificate, whose first line ends at `start`.
fn read_nodes(
    alloc: Global,
    space: &Space,
    bytes: &[u8],
    start: usize,
    count: u32,
) -> Result<Vec<CertNode>, CertRefusal>
    requires inside { start ≤ length bytes.now }
    requires first { take start bytes.now ≡ first_line count }
    requires few { count ≤ 200000 }
    ensures ok { IfOk result (λ nodes. Spells (sizes space.now) bytes.now (map cert_node_of nodes.items)) }
    ensures err { IfErr result (Refuses (sizes space.now) bytes.now) }
{
    let mut nodes = Vec::new(alloc);
    let mut at = start;
    'lines: while at < bytes.len() {
        if nodes.len() == count as usize {
            return Err(CertRefusal::Syntax(at as u64));
        }
        match next_node(alloc, space, &bytes[at..])? {
            Some((entry, len)) => {
                nodes.push(entry)?;
                at += len;
            }
            None => return Err(CertRefusal::Syntax(at as u64)),
        }
    }
    if nodes.len() < count as usize {
        return Err(CertRefusal::Syntax(at as u64));
    }
    Ok(nodes)
}

/// The certificate that the bytes spell over the variables of a space: at most 200,000 nodes, each
/// of which fits the space, in exactly the text that `cert_text` gives. Where they spell none, the
/// refusal says why: `TooMany` where the first line is well formed and has a greater number, and
/// else `Syntax` with the place of the first line that no text of a certificate goes on with.
pub fn read_cert(alloc: Global, space: &Space, bytes: &[u8]) -> Result<Cert, CertRefusal>
    ensures ok { IfOk result (λ cert. Spells (sizes space.now) bytes.now (cert_of cert)) }
    ensures err { IfErr result (Refuses (sizes space.now) bytes.now) }
{
    let start = match line_len(bytes) {
        Some(len) => len,
        None => return Err(CertRefusal::Syntax(0)),
    };
    let count = match read_count(alloc, &bytes[..start])? {
        Some(count) => count,
        None => return Err(CertRefusal::Syntax(0)),
    };
    if count > 200_000 {
        return Err(CertRefusal::TooMany(count));
    }
    let nodes = read_nodes(alloc, space, bytes, start, count)?;
    Ok(Cert { nodes })
}
