//! Tests of sessions.

use super::*;
use sc_sexpr::{Fault, Item, Splitter};
use sc_terms::{Bank, Memory, Problem};
use sc_tree::{Decider, Interp, Verdict};
use std::alloc::Global;
use std::test::Fail;

/// Answers no check-sat, as where memory is wanted.
#[derive(Drop)]
struct Mute;

impl Decider for Mute {
    fn decide(
        &mut self,
        _alloc: Global,
        _problem: &Problem,
        _bank: &Bank,
        _budget: u64,
    ) -> Result<Verdict, Memory> {
        Err(Memory)
    }
}

/// The commands of one session, and what is said to each: whole lines, or how an error begins.
const COMMANDS: [(&str, &str); 28] = [
    ("(set-logic ALL)", ""),
    ("(set-info :status sat)", ""),
    ("(declare-sort U 0)", ""),
    ("(declare-sort U 1)", "(error \"line 1: E9"),
    ("(declare-sort V 1)", "(error \"line 1: E8"),
    ("(declare-const x U)", ""),
    ("\n(declare-const x W)", "(error \"line 2: E9"),
    ("(declare-const y W)", "(error \"line 1: E6"),
    ("(declare-fun A () (Set U))", ""),
    ("(declare-fun x (U) U)", "(error \"line 1: E9"),
    ("(declare-fun f (U) U)", "(error \"line 1: E8"),
    ("(declare-fun p () Bool)", ""),
    ("(assert p)", ""),
    ("(assert (=> p (not (set.member x A))))", ""),
    ("(assert (and true (or p false)))", ""),
    ("(assert (= x x))", ""),
    ("(assert (set.subset A (set.insert x A)))", ""),
    ("(assert (= (set.card A) 1))", "(error \"line 1: E8"),
    ("(assert x)", "(error \"line 1: E7"),
    ("(assert z)", "(error \"line 1: E6"),
    ("(get-proof)", "(error \"line 1: E14"),
    ("(get-proof p)", "(error \"line 1: E5"),
    ("(check-sat 1)", "(error \"line 1: E5"),
    ("(push 1)", "(error \"line 1: E8"),
    ("(pull 1)", "(error \"line 1: E4"),
    ("p ", "(error \"line 1: E5"),
    ("(echo \"a\")", "\"a\"\n"),
    ("(exit)", "exit"),
];

/// The commands of one session that are followed without solving, and what is known of each: how an
/// error begins, how many assertions a `(get-proof)` asks for, or nothing.
const FOLLOWED: [(&str, &str); 18] = [
    ("(declare-const p Bool)", ""),
    ("(get-proof)", "(error \"line 1: E14"),
    ("(assert p)", ""),
    ("(check-sat)", ""),
    ("(get-proof)", "one"),
    ("(declare-const p Bool)", "(error \"line 1: E9"),
    ("(get-proof)", "one"),
    ("(assert (and (not p) r))", "(error \"line 1: E6"),
    ("(get-proof)", "one"),
    ("(assert (not p))", ""),
    ("\n(get-proof)", "(error \"line 2: E14"),
    ("(check-sat)", ""),
    ("(echo \"a\")", ""),
    ("(get-proof)", "two"),
    ("(declare-const q Bool)", ""),
    ("(get-proof)", "(error \"line 1: E14"),
    ("(assert r)", "(error \"line 1: E6"),
    ("(exit)", "exit"),
];

/// Faults, and how their lines begin.
const FAULTS: [(Fault, &str); 4] = [
    (Fault::Lexical { line: 3 }, "(error \"line 3: E1"),
    (Fault::Unmatched { line: 4 }, "(error \"line 4: E2"),
    (Fault::Unclosed { line: 5 }, "(error \"line 5: E3"),
    (
        Fault::Limit {
            line: 6,
            number: 1000,
        },
        "(error \"line 6: E16",
    ),
];

/// What is said to the first item of a text.
fn said(alloc: Global, session: &mut Session, text: &[u8]) -> Option<Result<Response, Memory>> {
    let mut splitter = Splitter::new(alloc, 1000);
    if splitter.feed(text).is_err() {
        return None;
    }
    let Item::Top { line } = splitter.next_item() else {
        return None;
    };
    Some(session.do_item(splitter.item(), line, 1, &mut Mute))
}

/// What is known of the first item of a text.
fn known(alloc: Global, session: &mut Session, text: &[u8]) -> Option<Result<Traced, Memory>> {
    let mut splitter = Splitter::new(alloc, 1000);
    if splitter.feed(text).is_err() {
        return None;
    }
    let Item::Top { line } = splitter.next_item() else {
        return None;
    };
    Some(session.trace_item(splitter.item(), line))
}

/// Whether the bytes begin with what is wanted, which is something.
fn begins(bytes: &[u8], wanted: &str) -> bool {
    !wanted.is_empty() && bytes.starts_with(wanted.as_bytes())
}

fn is_said(said: &Option<Result<Response, Memory>>, wanted: &str) -> bool {
    match said {
        Some(Ok(Response::Text(bytes))) => bytes.as_slice() == wanted.as_bytes(),
        Some(Ok(Response::Error(bytes))) => begins(bytes.as_slice(), wanted),
        Some(Ok(Response::Exit(_))) => wanted == "exit",
        Some(Ok(Response::Proof)) => wanted == "proof",
        Some(Err(_)) => wanted == "no memory",
        None => false,
    }
}

fn is_known(known: &Option<Result<Traced, Memory>>, wanted: &str) -> bool {
    match known {
        Some(Ok(Traced::Nothing)) => wanted == "",
        Some(Ok(Traced::Proof(assertions))) => match assertions.as_slice().len() {
            1 => wanted == "one",
            2 => wanted == "two",
            _ => false,
        },
        Some(Ok(Traced::Error(bytes))) => begins(bytes.as_slice(), wanted),
        Some(Ok(Traced::Exit)) => wanted == "exit",
        Some(Err(_)) => wanted == "no memory",
        None => false,
    }
}

#[test]
fn commands(rt: HostRuntime) {
    let mut session = Session::new(rt.alloc());
    for (text, wanted) in COMMANDS {
        assert!(&rt; is_said(&said(rt.alloc(), &mut session, text.as_bytes()), wanted));
    }
    assert!(&rt; is_said(&said(rt.alloc(), &mut session, b"(check-sat)"), "no memory"));
    assert!(&rt; session.into_verdicts().as_slice().is_empty());
}

#[test]
fn followed(rt: HostRuntime) {
    let mut session = Session::new(rt.alloc());
    for (text, wanted) in FOLLOWED {
        assert!(&rt; is_known(&known(rt.alloc(), &mut session, text.as_bytes()), wanted));
    }
    assert!(&rt; session.proof().is_none());
    assert!(&rt; session.into_verdicts().as_slice().is_empty());
}

#[test]
fn faults(rt: HostRuntime) -> Result<(), Fail> {
    for (fault, wanted) in FAULTS {
        let line = fault_line(rt.alloc(), fault)?;
        assert!(&rt; line.as_slice().starts_with(wanted.as_bytes()));
    }
    Ok(())
}

#[test]
fn verdicts(rt: HostRuntime) -> Result<(), Fail> {
    let mut verdicts = Verdicts::new(rt.alloc());
    verdicts.push(Verdict::Sat(Interp::new(rt.alloc())))?;
    for verdict in verdicts.as_slice() {
        assert!(&rt; verdict_line(verdict) == b"sat\n".as_slice());
    }
    Ok(())
}
