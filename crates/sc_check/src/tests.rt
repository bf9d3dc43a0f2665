//! Tests of checks.

use super::*;
use sc_io::{MemorySink, MemorySource};
use std::alloc::Global;
use std::test::Fail;

/// A script whose assertions contradict one another, and the command that asks for the proof.
const SCRIPT: &str = "(declare-sort U 0)(declare-const x U)(declare-const A (Set U))
(assert (set.member x A))(assert (not (set.member x A)))(check-sat)(get-proof)";

/// A derivation that refutes it.
const PROOF: &str = "(derivation\n(tree\n(unit 2 1)\n(clash (sign 1))\n)\n)\n";

/// What stands behind the script, how the check ends, and what is written.
const CASES: [(&str, Ending, &str); 13] = [
    ("", Ending::Nothing, ""),
    ("(exit)", Ending::Nothing, ""),
    (
        "(exit) unsat (define-fun p () Bool true) |derivation| (|derivation|) ()",
        Ending::Nothing,
        "",
    ),
    (
        "(exit) unsat (derivation (tree (unit 2 1) (clash (sign 1))))",
        Ending::Done,
        "derivation 1: accepted\n",
    ),
    (
        "(exit) (derivation ; a comment\n (tree (unit 2 1)\t(clash (sign 2))))",
        Ending::Refused,
        "derivation 1: refused at node 2: Q2 no clash\n",
    ),
    (
        "(exit) (derivation (tree (unit 1 1) (clash (sign 1))))",
        Ending::Refused,
        "derivation 1: refused at node 1: Q1 step does not apply\n",
    ),
    (
        "(exit) (derivation (tree (unit 2 1) (clash (sign 1)) (clash (sign 1))))",
        Ending::Refused,
        "derivation 1: refused at node 3: P6 nodes left over\n",
    ),
    (
        "(exit)\n(derivation (tree (unit 2 01) (clash (sign 1))))",
        Ending::Error,
        "(error \"line 3: E1 lexical fault\")\n",
    ),
    (
        "(get-proof)(exit) (derivation (tree (unit 2 1) (clash (sign 1)))) (derivation)",
        Ending::Refused,
        "derivation 1: accepted\nderivation 2: refused at node 0: P1 not a derivation\n",
    ),
    (
        "(exit) (derivation (tree (unit 2 1) (clash (sign 1)))) (derivation (tree))",
        Ending::Refused,
        "derivation 1: accepted\nderivation 2: refused: no get-proof\n",
    ),
    (
        "(exit) (derivation (tree (unit 2 1)",
        Ending::Error,
        "(error \"line 2: E3 input ends inside a command\")\n",
    ),
    (
        "(assert true)(get-proof)",
        Ending::Error,
        "(error \"line 2: E14 no proof\")\n",
    ),
    (
        "(pop 1)(exit)",
        Ending::Error,
        "(error \"line 2: E8 outside the profile\")\n",
    ),
];

/// How the check of the script and what follows ends, and what it writes, in pieces of so many
/// bytes.
fn checked(
    alloc: Global,
    parts: &[&str],
    most: usize,
    failing_reads: &[u64],
    failing_writes: &[u64],
) -> Result<(Ending, Vec<u8>), Fail> {
    let mut text = Vec::new(alloc);
    for part in parts {
        text.extend_from_slice(part.as_bytes())?;
    }
    let most = most.max(1);
    let mut source = MemorySource::new(text, failing_reads.to_vec(alloc)?, most);
    let mut out = MemorySink::new(alloc, failing_writes.to_vec(alloc)?, most);
    let ending = check_input(alloc, &mut source, &mut out);
    Ok((ending, out.bytes().to_vec(alloc)?))
}

#[test]
fn transcripts(rt: HostRuntime) -> Result<(), Fail> {
    for (text, ending, lines) in CASES {
        for most in [3, 5000] {
            let (ended, written) = checked(rt.alloc(), &[SCRIPT, text], most, &[], &[])?;
            assert_eq!(rt; ended, ending, "{text}");
            assert_eq!(rt; written.as_slice(), lines.as_bytes(), "{text}");
        }
    }
    Ok(())
}

#[test]
fn faults(rt: HostRuntime) -> Result<(), Fail> {
    let parts = [SCRIPT, "(exit)", PROOF, PROOF];
    let (ended, written) = checked(rt.alloc(), &parts, 10, &[4], &[])?;
    assert_eq!(rt; ended, Ending::ReadFault);
    assert!(&rt; written.is_empty());
    let (ended, written) = checked(rt.alloc(), &parts, 10, &[], &[3])?;
    assert_eq!(rt; ended, Ending::WriteFault);
    assert_eq!(rt; written.as_slice(), b"derivation 1: accept".as_slice());
    Ok(())
}
