//! Checks of derivations, from text to answers.

use super::*;
use sc_io::{MemorySink, MemorySource};
use std::alloc::Global;
use std::process::Abort;
use std::test::Fail;

/// A script whose assertions contradict one another, up to its check-sat.
const SCRIPT: &str = "(declare-sort U 0)(declare-const x U)(declare-const A (Set U))
(assert (set.member x A))(assert (not (set.member x A)))(check-sat)";

/// What follows it, the status of the check, and what is written.
const CASES: &[(&str, u8, &str)] = &[
    // No transcript.
    ("", 7, ""),
    ("(get-proof)", 7, ""),
    ("(get-proof)(exit)", 7, ""),
    (
        "(get-proof)(exit) unsat (model) (define-fun p () Bool true)",
        7,
        "",
    ),
    // Accepted, in any layout.
    (
        "(get-proof)(exit)\nunsat\n(derivation\n(tree\n(unit 2 1)\n(clash (sign 1))\n)\n)\n",
        0,
        "derivation 1: accepted\n",
    ),
    (
        "(get-proof)(exit)(derivation;\n(  tree ; (\n(unit\t2\r1)(clash(sign 1)) ))",
        0,
        "derivation 1: accepted\n",
    ),
    (
        "(get-proof)(get-proof)(exit)(derivation (tree (unit 2 1) (clash (sign 1))))(derivation (tree (unit 2 1) (clash (sign 1))))",
        0,
        "derivation 1: accepted\nderivation 2: accepted\n",
    ),
    // Quoted words are no words.
    (
        "(get-proof)(exit)(|derivation| (tree (unit 2 1) (clash (sign 1))))",
        7,
        "",
    ),
    (
        "(get-proof)(exit)(derivation (|tree| (unit 2 1) (clash (sign 1))))",
        6,
        "derivation 1: refused at node 0: P1 not a derivation\n",
    ),
    // One of each reason.
    (
        "(get-proof)(exit)(derivation)",
        6,
        "derivation 1: refused at node 0: P1 not a derivation\n",
    ),
    (
        "(get-proof)(exit)(derivation (tree (unite 2 1) (clash (sign 1))))",
        6,
        "derivation 1: refused at node 1: P2 unknown word\n",
    ),
    (
        "(get-proof)(exit)(derivation (tree (unit 2 1) (clash (sign))))",
        6,
        "derivation 1: refused at node 2: P3 malformed node\n",
    ),
    (
        "(get-proof)(exit)(derivation (tree (unit 4294967296 1) (clash (sign 1))))",
        6,
        "derivation 1: refused at node 1: P4 number\n",
    ),
    (
        "(get-proof)(exit)(derivation (tree (unit 2 1)))",
        6,
        "derivation 1: refused at node 2: P5 nodes missing\n",
    ),
    (
        "(get-proof)(exit)(derivation (tree (unit 2 1) (clash (sign 1)) (clash (sign 1))))",
        6,
        "derivation 1: refused at node 3: P6 nodes left over\n",
    ),
    (
        "(get-proof)(exit)(derivation (tree (unit 1 1) (clash (sign 1))))",
        6,
        "derivation 1: refused at node 1: Q1 step does not apply\n",
    ),
    (
        "(get-proof)(exit)(derivation (tree (unit 2 1) (clash (sign 2))))",
        6,
        "derivation 1: refused at node 2: Q2 no clash\n",
    ),
    // One refused of two, and none asked for.
    (
        "(get-proof)(get-proof)(exit)(derivation (tree (clash (sign 1))))(derivation (tree (unit 2 1) (clash (sign 1))))",
        6,
        "derivation 1: refused at node 1: Q2 no clash\nderivation 2: accepted\n",
    ),
    (
        "(exit)(derivation (tree (unit 2 1) (clash (sign 1))))",
        6,
        "derivation 1: refused: no get-proof\n",
    ),
    (
        "(exit)(derivation 7)",
        6,
        "derivation 1: refused: no get-proof\n",
    ),
    // Faults of the text.
    (
        "(get-proof)(exit)\n(derivation (tree (unit 2 01) (clash (sign 1))))",
        1,
        "(error \"line 3: E1 lexical fault\")\n",
    ),
    (
        "(get-proof)(exit)(derivation (tree (unit 2 1) (clash (sign 1)))) (derivation (tree (un",
        1,
        "derivation 1: accepted\n(error \"line 2: E3 input ends inside a command\")\n",
    ),
    (
        "(get-proof)(exit)(derivation (tree (clash (sign 1)))))",
        1,
        "derivation 1: refused at node 1: Q2 no clash\n(error \"line 2: E2 unmatched parenthesis\")\n",
    ),
    // Faults of the script.
    (
        "(assert true)(get-proof)(exit)",
        1,
        "(error \"line 2: E14 no proof\")\n",
    ),
    (
        "(declare-const q Bool)(get-proof)(exit)",
        1,
        "(error \"line 2: E14 no proof\")\n",
    ),
    (
        "(get-proof)\nunsat",
        1,
        "(error \"line 3: E5 malformed command\")\n",
    ),
];

/// The status of the program with this word on this input, and what it writes, where these reads and
/// writes fail, in pieces of at most `most` bytes.
fn faulty_outcome(
    alloc: Global,
    word: &str,
    text: &[u8],
    failing: (&[u64], &[u64]),
    most: usize,
) -> Result<(u8, Vec<u8>), Fail> {
    let mut words = Vec::new(alloc);
    words.push(String::from_str(alloc, word)?)?;
    let most = most.max(1);
    let mut source = MemorySource::new(text.to_vec(alloc)?, failing.0.to_vec(alloc)?, most);
    let mut out = MemorySink::new(alloc, failing.1.to_vec(alloc)?, most);
    let ended = run(&(), alloc, &words, &mut source, &mut out, &OpenGate);
    Ok((ended.status, out.bytes().to_vec(alloc)?))
}

/// The status of the program with this word on this input, and what it writes.
fn outcome(alloc: Global, word: &str, text: &[u8]) -> Result<(u8, Vec<u8>), Fail> {
    faulty_outcome(alloc, word, text, (&[], &[]), 4096)
}

/// The script, and what follows it.
fn input(alloc: Global, behind: &[u8]) -> Result<Vec<u8>, Fail> {
    let mut text = SCRIPT.as_bytes().to_vec(alloc)?;
    text.extend_from_slice(behind)?;
    Ok(text)
}

/// What follows the script in each of these cases gives this status, and these lines.
fn check_cases(rt: &impl Abort, alloc: Global, cases: &[(&str, u8, &str)]) -> Result<(), Fail> {
    for (behind, status, lines) in cases {
        let text = input(alloc, behind.as_bytes())?;
        let (ended, written) = outcome(alloc, "check", &text)?;
        assert!(rt; written.as_slice() == lines.as_bytes());
        assert!(rt; ended == *status);
    }
    Ok(())
}

#[test]
fn transcripts(rt: HostRuntime) -> Result<(), Fail> {
    check_cases(&rt, rt.alloc(), CASES)?;
    let (ended, written) = outcome(rt.alloc(), "check", b"(get-proof)")?;
    assert!(&rt; written.as_slice() == b"(error \"line 1: E14 no proof\")\n".as_slice());
    assert!(&rt; ended == 1);
    Ok(())
}

/// What follows the script, with a derivation that is accepted.
const PROOF: &[u8] = b"(get-proof)(exit)(derivation (tree (unit 2 1) (clash (sign 1))))";

#[test]
fn failing_checks(rt: HostRuntime) -> Result<(), Fail> {
    let text = input(rt.alloc(), PROOF)?;
    let (status, written) = faulty_outcome(rt.alloc(), "check", &text, (&[20], &[]), 10)?;
    assert!(&rt; status == 3);
    assert!(&rt; written.is_empty());
    let (status, written) = faulty_outcome(rt.alloc(), "check", &text, (&[], &[3]), 10)?;
    assert!(&rt; status == 4);
    assert!(&rt; written.as_slice() == b"derivation 1: accept".as_slice());
    Ok(())
}

/// The declarations of the scripts that are made.
const FRONT: &[u8] =
    b"(declare-const p Bool)(declare-const q Bool)(declare-sort U 0)(declare-const x U)(declare-const y U)
(declare-const A (Set U))(declare-const B (Set U))\n";

/// What their assertions are made of.
const ATOMS: &[&[u8]] = &[
    b"p",
    b"q",
    b"(= x y)",
    b"(set.member x A)",
    b"(set.member y A)",
    b"(set.member y B)",
    b"(= A B)",
    b"(set.subset A B)",
    b"(= (set.union A B) (set.singleton x))",
    b"(set.member x (set.minus B A))",
];

/// The number that follows another one, below 65,536.
fn next(number: u32) -> u32 {
    (number % 65_536 * 25_173 + 13_849) % 65_536
}

/// A clause of two literals, of the number's choice.
fn put_clause(script: &mut Vec<u8>, first: u32, second: u32) -> Result<(), Fail> {
    script.extend_from_slice(b"(assert (or")?;
    for number in [first, second] {
        let atom = ATOMS
            .get((number / 64 % 10) as usize)
            .copied()
            .unwrap_or(b"p");
        if number / 1024 % 2 == 0 {
            script.extend_from_slice(b" ")?;
            script.extend_from_slice(atom)?;
        } else {
            script.extend_from_slice(b" (not ")?;
            script.extend_from_slice(atom)?;
            script.extend_from_slice(b")")?;
        }
    }
    script.extend_from_slice(b"))\n")?;
    Ok(())
}

/// The script of this number: sixteen clauses and a check-sat.
fn script(alloc: Global, seed: u32) -> Result<Vec<u8>, Fail> {
    let mut script = FRONT.to_vec(alloc)?;
    let mut number = next(seed);
    for _ in 0..16 {
        let second = next(number);
        put_clause(&mut script, number, second)?;
        number = next(second);
    }
    script.extend_from_slice(b"(check-sat)")?;
    Ok(script)
}

/// Whether the script of this number is unsatisfiable; then what is printed for its proof is to be
/// accepted.
fn is_refuted(rt: &impl Abort, alloc: Global, seed: u32) -> Result<bool, Fail> {
    let mut text = script(alloc, seed)?;
    let (_, verdict) = outcome(alloc, "solve", &text)?;
    if verdict.as_slice() != b"unsat\n".as_slice() {
        assert!(rt; verdict.as_slice() == b"sat\n".as_slice());
        return Ok(false);
    }
    text.extend_from_slice(b"(get-proof)(exit)\n")?;
    let (_, transcript) = outcome(alloc, "solve", &text)?;
    text.extend_from_slice(&transcript)?;
    let (status, lines) = outcome(alloc, "check", &text)?;
    assert!(rt; lines.as_slice() == b"derivation 1: accepted\n".as_slice());
    assert!(rt; status == 0);
    Ok(true)
}

#[test]
fn printed_proofs_are_accepted(rt: HostRuntime) -> Result<(), Fail> {
    let mut count = 0u32;
    for seed in 0..200 {
        if is_refuted(&rt, rt.alloc(), seed)? && count < 200 {
            count += 1;
        }
    }
    assert!(rt; count > 60);
    Ok(())
}
