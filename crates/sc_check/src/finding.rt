//! What is found of a derivation, and its line.

ghost use Rattle.std.specs.Prelude.{◌≡◌, ◌++◌, if◌then◌else◌, is_ok, IfOk};
ghost use Rattle.std.specs.List.{flat_map};
ghost use Rattle.sc_check.specs.Lines as lines;

use itoa::Buffer;
use sc_deriv::{Judgement, Reason};
use sc_terms::Memory;
use std::alloc::Global;

/// What is found of a derivation.
#[derive(Clone, Copy, Debug, PartialEq, Eq)]
pub enum Finding {
    /// It was judged against the assertions for which its `get-proof` asks.
    Judged(Judgement),
    /// No `get-proof` asks for it.
    Unasked,
}

/// A reason's code and text.
fn reason_text(reason: Reason) -> &'static str
    ensures { result.now ≡ lines.reason_text reason }
{
    match reason {
        Reason::P1 => "P1 not a derivation",
        Reason::P2 => "P2 unknown word",
        Reason::P3 => "P3 malformed node",
        Reason::P4 => "P4 number",
        Reason::P5 => "P5 nodes missing",
        Reason::P6 => "P6 nodes left over",
        Reason::Q1 => "Q1 step does not apply",
        Reason::Q2 => "Q2 no clash",
        Reason::Q3 => "Q3 rows do not refute",
        Reason::Q4 => "Q4 lemma does not apply",
        Reason::Q5 => "Q5 number past 128 bits",
    }
}

pub(crate) fn is_accepted(finding: &Finding) -> bool
    ensures { result ≡ lines.is_accepted finding.now }
{
    matches!(finding, Finding::Judged(Judgement::Accepted))
}

/// The pieces one after the other.
fn joined(alloc: Global, pieces: &[&[u8]]) -> Result<Vec<u8>, Memory>
    ensures { IfOk result (λ v. v.items ≡ flat_map (λ p. p.now) pieces.now) }
{
    let mut bytes = Vec::new(alloc);
    for piece in pieces.iter() {
        if bytes.extend_from_slice(piece).is_err() {
            return Err(Memory);
        }
    }
    Ok(bytes)
}

/// What is said of a derivation.
fn finding_text(alloc: Global, finding: &Finding) -> Result<Vec<u8>, Memory>
    ensures { IfOk result (λ v. v.items ≡ lines.finding_text finding.now) }
{
    match finding {
        Finding::Judged(Judgement::Accepted) => Ok(b"accepted".to_vec(alloc)?),
        Finding::Judged(Judgement::Refused { node, reason }) => {
            let mut buffer = Buffer::new();
            let node = buffer.format(*node).as_bytes();
            let reason = reason_text(*reason).as_bytes();
            let pieces: [&[u8]; 4] = [b"refused at node ", node, b": ", reason];
            joined(alloc, &pieces)
        }
        Finding::Unasked => Ok(b"refused: no get-proof".to_vec(alloc)?),
    }
}

/// The line of the derivation with this number, with its line feed.
pub(crate) fn finding_line(alloc: Global, number: u64, finding: &Finding) -> Result<Vec<u8>, Memory>
    ensures { IfOk result (λ v. v.items ≡ lines.finding_line number finding.now) }
{
    let text = finding_text(alloc, finding)?;
    let mut buffer = Buffer::new();
    let number = buffer.format(number).as_bytes();
    let pieces: [&[u8]; 5] = [b"derivation ", number, b": ", text.as_slice(), b"\n"];
    joined(alloc, &pieces)
}
