//! Scripts over sets, from text to answers.

use super::*;
use sc_io::{MemorySink, MemorySource};
use std::alloc::Global;
use std::process::Abort;
use std::test::Fail;

/// Two declared sorts, elements and sets of the first, and a set of the second.
const FRONT: &str =
    "(set-logic ALL)(declare-sort U 0)(declare-sort V 0)(declare-const x U)(declare-const y U)(declare-const z U)(declare-const A (Set U))(declare-const B (Set U))(declare-const C (Set U))(declare-const S (Set V))\n";

/// What is written for the script that these commands make behind the declarations.
fn answer(alloc: Global, commands: &str) -> Result<(u8, Vec<u8>), Fail> {
    let mut text = FRONT.as_bytes().to_vec(alloc)?;
    text.extend_from_slice(commands.as_bytes())?;
    let mut words = Vec::new(alloc);
    words.push(String::from_str(alloc, "solve")?)?;
    let mut source = MemorySource::new(text, Vec::new(alloc), 4096);
    let mut out = MemorySink::new(alloc, Vec::new(alloc), 4096);
    let ended = run(&(), alloc, &words, &mut source, &mut out, &OpenGate);
    Ok((ended.status, out.bytes().to_vec(alloc)?))
}

/// Each of these scripts has this status, and what is written for it.
fn check_answers(
    rt: &impl Abort,
    alloc: Global,
    wanted: u8,
    table: &[(&str, &str)],
) -> Result<(), Fail> {
    for (commands, expected) in table {
        let (status, written) = answer(alloc, commands)?;
        assert!(rt; status == wanted);
        assert!(rt; written.as_slice() == expected.as_bytes());
    }
    Ok(())
}

#[test]
fn elements_and_sets(rt: HostRuntime) -> Result<(), Fail> {
    let table = [
        // Equal elements are in the same sets.
        (
            "(assert (set.member x A))(assert (= x y))(check-sat)(assert (not (set.member y A)))(check-sat)",
            "sat\nunsat\n",
        ),
        (
            "(assert (distinct x y z))(assert (= (set.insert x y A) (set.singleton z)))(check-sat)",
            "unsat\n",
        ),
        (
            "(assert (= x y z))(assert (distinct A (set.insert x A)))(assert (set.member z A))(check-sat)",
            "unsat\n",
        ),
        // Sets that differ.
        ("(assert (distinct A B))(check-sat)", "sat\n"),
        (
            "(assert (distinct A B C))(assert (set.subset A B))(assert (set.subset B C))(check-sat)(assert (set.subset C A))(check-sat)",
            "sat\nunsat\n",
        ),
        ("(assert (distinct A A))(check-sat)", "unsat\n"),
        (
            "(assert (not (= (as set.empty (Set V)) S)))(check-sat)",
            "sat\n",
        ),
        // Singletons and the empty set.
        (
            "(assert (set.member x (as set.empty (Set U))))(check-sat)",
            "unsat\n",
        ),
        (
            "(assert (= (set.singleton x) (set.singleton y)))(assert (distinct x y))(check-sat)",
            "unsat\n",
        ),
        (
            "(assert (set.subset A (set.singleton x)))(assert (distinct A (as set.empty (Set U))))(assert (not (set.member x A)))(check-sat)",
            "unsat\n",
        ),
        (
            "(assert (= (set.union A B) (set.singleton x)))(assert (not (set.member x A)))(check-sat)(assert (not (set.member x B)))(check-sat)",
            "sat\nunsat\n",
        ),
    ];
    check_answers(&rt, rt.alloc(), 0, table.as_slice())
}

#[test]
fn laws_of_sets(rt: HostRuntime) -> Result<(), Fail> {
    // The negation of a law, and a like statement that is no law.
    let table = [
        (
            "(assert (distinct (set.minus C (set.union A B)) (set.inter (set.minus C A) (set.minus C B))))(check-sat)",
            "unsat\n",
        ),
        (
            "(assert (distinct (set.minus C (set.inter A B)) (set.union (set.minus C A) (set.minus C B))))(check-sat)",
            "unsat\n",
        ),
        (
            "(assert (distinct (set.minus C (set.union A B)) (set.union (set.minus C A) (set.minus C B))))(check-sat)",
            "sat\n",
        ),
        (
            "(assert (distinct (set.inter A (set.union B C)) (set.union (set.inter A B) (set.inter A C))))(check-sat)",
            "unsat\n",
        ),
        (
            "(assert (distinct (set.union A (set.inter B C)) (set.inter (set.union A B) (set.union A C))))(check-sat)",
            "unsat\n",
        ),
        (
            "(assert (distinct (set.minus A (set.union B C)) (set.union (set.minus A B) (set.minus A C))))(check-sat)",
            "sat\n",
        ),
        (
            "(assert (distinct (set.union A (set.inter A B)) A))(check-sat)",
            "unsat\n",
        ),
        (
            "(assert (distinct (set.inter A (set.union A B)) A))(check-sat)",
            "unsat\n",
        ),
        (
            "(assert (distinct (set.union A (set.inter A B)) B))(check-sat)",
            "sat\n",
        ),
        (
            "(assert (not (=> (and (set.subset A B) (set.subset B C)) (set.subset A C))))(check-sat)",
            "unsat\n",
        ),
        (
            "(assert (set.subset (set.inter A B) C))(assert (set.subset C (set.union A B)))(assert (distinct C (set.inter A B) (set.union A B)))(check-sat)",
            "sat\n",
        ),
    ];
    check_answers(&rt, rt.alloc(), 0, table.as_slice())
}

#[test]
fn proofs(rt: HostRuntime) -> Result<(), Fail> {
    let table = [(
        "(assert false)(check-sat)(get-proof)(echo \"a\")(get-proof)",
        "unsat\n(derivation\n(tree\n(unit 1 0)\n(clash (sign 1))\n)\n)\n\"a\"\n(derivation\n(tree\n(unit 1 0)\n(clash (sign 1))\n)\n)\n",
    )];
    check_answers(&rt, rt.alloc(), 0, table.as_slice())
}

#[test]
fn outside_the_profile(rt: HostRuntime) -> Result<(), Fail> {
    let table = [
        (
            "(assert (= A (as set.universe (Set U))))",
            "(error \"line 2: E8 outside the profile\")\n",
        ),
        (
            "(echo \"a\")\n(assert (= A (set.complement B)))",
            "\"a\"\n(error \"line 3: E8 outside the profile\")\n",
        ),
        (
            "\n(assert\n(= (set.card A) 1))",
            "(error \"line 3: E8 outside the profile\")\n",
        ),
    ];
    check_answers(&rt, rt.alloc(), 1, table.as_slice())
}
