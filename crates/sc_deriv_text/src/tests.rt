//! Tests of the text.

use super::*;
use sc_deriv::{Derivation, Reason};
use sc_io::MemorySink;
use sc_sexpr::{Item, Splitter, read_tree};
use std::alloc::Global;
use std::test::Fail;

/// What the first item of a text is read as.
fn read_text(alloc: Global, text: &[u8]) -> Result<Derivation, TextError> {
    let mut splitter = Splitter::new(alloc, 1 << 30);
    if splitter.feed(text).is_err() {
        return Err(TextError::Memory);
    }
    let Item::Top { line } = splitter.next_item() else {
        return Err(TextError::Memory);
    };
    let Ok(tree) = read_tree(alloc, splitter.item(), line) else {
        return Err(TextError::Memory);
    };
    read(alloc, &tree)
}

/// The node and the number of the reason with which it is refused; zeros where it is read.
fn refusal(alloc: Global, text: &[u8]) -> (u64, u32) {
    match read_text(alloc, text) {
        Ok(_) => (0, 0),
        Err(TextError::Refused { node, reason }) => (node, place(reason)),
        Err(TextError::Memory) => (0, 99),
    }
}

fn place(reason: Reason) -> u32 {
    match reason {
        Reason::P1 => 1,
        Reason::P2 => 2,
        Reason::P3 => 3,
        Reason::P4 => 4,
        Reason::P5 => 5,
        Reason::P6 => 6,
        _ => 7,
    }
}

/// What is written of what was read, and whether its length is told right.
fn written(alloc: Global, text: &[u8]) -> (Vec<u8>, bool) {
    let mut out = Vec::new(alloc);
    let Ok(derivation) = read_text(alloc, text) else {
        return (out, false);
    };
    let mut sink = MemorySink::new(alloc, Vec::new(alloc), 7);
    if write(&derivation, &mut sink).is_err() {
        return (out, false);
    }
    let is_told = length(&derivation) == sink.bytes().len() as u128;
    if out.extend_from_slice(sink.bytes()).is_err() {
        return (out, false);
    }
    (out, is_told)
}

// Each word, and each kind of fact's name.
const EACH: &str =
    "(derivation\n(tree\n(atom 1)\n(all 2 3)\n(unit 4294967295 0)\n(op 1 2 0)\n(single 1 2)\n(unsingle 1 2)\n(carry 1 2 3)\n(apart 1 2 3)\n(move 1 2 3)\n(setapart 1 2 3)\n(eqrefl 1)\n(eqstep 1 2 3)\n(seqrefl 1)\n(seqstep 3 2 1)\n(cut (sign 2))\n(clash (in 2 1))\n(cut (eq 1 2))\n(clash (eq 3 3))\n(cut (seq 1 2))\n(clash (empty 7 -+-))\n(differ 5 4)\n(clash (sign 0))\n(clash (seq 10 4294967295))\n)\n)\n";

const SHORT: &str = "(derivation\n(tree\n(unit 2 1)\n(clash (sign 2))\n)\n)\n";

#[test]
fn reads_what_is_written(rt: HostRuntime) {
    let cases: [(&str, &str); 4] = [
        (EACH, EACH),
        (SHORT, SHORT),
        ("(derivation(tree(unit 2 1)(clash(sign 2))))", SHORT),
        (
            " ; a comment\n( derivation ;(\n( tree (unit\t2 1 ) ; )\n\n(clash ( sign 2)) ) ) ",
            SHORT,
        ),
    ];
    for (text, expected) in cases.iter() {
        let (out, is_told) = written(rt.alloc(), text.as_bytes());
        assert_eq!(rt; out.as_slice(), expected.as_bytes());
        assert_eq!(rt; is_told, true);
    }
}

#[test]
fn refuses_at_the_first_fault(rt: HostRuntime) {
    let cases: [(&str, (u64, u32)); 49] = [
        ("derivation ", (0, 1)),
        ("()", (0, 1)),
        ("(derivation)", (0, 1)),
        ("(|derivation| (tree (clash (sign 1))))", (0, 1)),
        ("((derivation) (tree (clash (sign 1))))", (0, 1)),
        ("(derivation 2 (tree (clash (sign 1))))", (0, 1)),
        ("(derivation tree)", (0, 1)),
        ("(derivation (|tree| (clash (sign 1))))", (0, 1)),
        (
            "(derivation (lemma () (clash (sign 1))) (tree (clash (sign 1))))",
            (0, 1),
        ),
        ("(derivation (tree (clash (sign 1))) 5)", (1, 1)),
        (
            "(derivation (tree (unit 1 0) (clash (sign 1))) (tree))",
            (2, 1),
        ),
        ("(derivation (tree (foo 1)))", (1, 2)),
        ("(derivation (tree (unit 1 0) unit))", (2, 2)),
        ("(derivation (tree ()))", (1, 2)),
        ("(derivation (tree ((unit) 1 1)))", (1, 2)),
        ("(derivation (tree (|unit| 2 1)))", (1, 2)),
        ("(derivation (tree (\"unit\" 2 1)))", (1, 2)),
        ("(derivation (tree (Unit 2 1)))", (1, 2)),
        ("(derivation (tree (sign 1)))", (1, 2)),
        ("(derivation (tree (by 1)))", (1, 2)),
        ("(derivation (tree (unit 1)))", (1, 3)),
        ("(derivation (tree (unit 1 2 4294967296)))", (1, 3)),
        ("(derivation (tree (unit 1 (2))))", (1, 3)),
        ("(derivation (tree (unit 1 x)))", (1, 3)),
        ("(derivation (tree (unit (- 0) 1)))", (1, 3)),
        ("(derivation (tree (unit 1 (- 3))))", (1, 3)),
        ("(derivation (tree (unit 1.0 1)))", (1, 3)),
        ("(derivation (tree (unit |1| 1)))", (1, 3)),
        ("(derivation (tree (clash (eq 3 2))))", (1, 3)),
        ("(derivation (tree (cut (seq 3 2))))", (1, 3)),
        ("(derivation (tree (clash (in 3))))", (1, 3)),
        ("(derivation (tree (clash (unit 3 2))))", (1, 3)),
        ("(derivation (tree (clash (|sign| 3))))", (1, 3)),
        ("(derivation (tree (clash sign 3)))", (1, 3)),
        ("(derivation (tree (clash (sign 1) (sign 1))))", (1, 3)),
        ("(derivation (tree (clash (empty 1 --))))", (1, 3)),
        ("(derivation (tree (clash (empty 1 +/))))", (1, 3)),
        ("(derivation (tree (clash (empty 1 |+|))))", (1, 3)),
        ("(derivation (tree (unit 4294967296)))", (1, 4)),
        (
            "(derivation (tree (unit 1 0) (all 1 4294967296 7)))",
            (2, 4),
        ),
        ("(derivation (tree (clash (eq 4294967296 2))))", (1, 4)),
        ("(derivation (tree (clash (empty 4294967296 -))))", (1, 4)),
        (
            "(derivation (tree (eqrefl 340282366920938463463374607431768211456)))",
            (1, 4),
        ),
        ("(derivation (tree))", (1, 5)),
        ("(derivation (tree (unit 2 1)))", (2, 5)),
        (
            "(derivation (tree (differ 1 2) (clash (sign 1))) 5)",
            (3, 5),
        ),
        (
            "(derivation (tree (unit 2 1) (clash (sign 2)) (foo)))",
            (3, 6),
        ),
        ("(derivation (tree (clash (sign 2)) 7))", (2, 6)),
        (
            "(derivation (tree (unit 4294967295 1) (clash (eq 3 3))))",
            (0, 0),
        ),
    ];
    for (text, expected) in cases.iter() {
        assert_eq!(rt; refusal(rt.alloc(), text.as_bytes()), *expected);
    }
}

// Of a sink whose third call fails only the first pieces are left.
#[test]
fn stops_where_the_sink_fails(rt: HostRuntime) -> Result<(), Fail> {
    let Ok(derivation) = read_text(rt.alloc(), SHORT.as_bytes()) else {
        return Err("read".into());
    };
    let mut sink = MemorySink::new(rt.alloc(), vec![in rt.alloc(); 3]?, 12);
    assert_eq!(rt; write(&derivation, &mut sink), Err(WriteError::Sink));
    assert_eq!(rt; sink.bytes(), b"(derivation\n(tree\n".as_slice());
    Ok(())
}

/// How many calls of a sink the text takes that is written of what was read; 0 where it is not written.
fn call_count(alloc: Global, text: &[u8]) -> u64 {
    let Ok(derivation) = read_text(alloc, text) else {
        return 0;
    };
    let mut sink = MemorySink::new(alloc, Vec::new(alloc), 1 << 20);
    if write(&derivation, &mut sink).is_err() {
        return 0;
    }
    sink.calls()
}

// A long tree is read and written without deep recursion, and its lines go to the sink many at a time.
#[test]
fn long_derivations(rt: HostRuntime) -> Result<(), Fail> {
    let mut text = Vec::from_slice(rt.alloc(), b"(derivation\n(tree\n")?;
    for _ in 0..10_000 {
        text.extend_from_slice(b"(eqrefl 1)\n")?;
    }
    text.extend_from_slice(b"(clash (sign 1))\n)\n)\n")?;
    let (out, is_told) = written(rt.alloc(), text.as_slice());
    assert_eq!(rt; out.as_slice() == text.as_slice(), true);
    assert_eq!(rt; is_told, true);
    assert_eq!(rt; call_count(rt.alloc(), text.as_slice()), 110);
    Ok(())
}

// A line that is longer than what is held back stands between its neighbours.
#[test]
fn long_lines(rt: HostRuntime) -> Result<(), Fail> {
    let mut text = Vec::from_slice(
        rt.alloc(),
        b"(derivation\n(tree\n(unit 1 0)\n(cut (empty 7 ",
    )?;
    for _ in 0..2_000 {
        text.extend_from_slice(b"+-")?;
    }
    text.extend_from_slice(b"))\n(clash (sign 1))\n(clash (sign 2))\n)\n)\n")?;
    let (out, is_told) = written(rt.alloc(), text.as_slice());
    assert_eq!(rt; out.as_slice() == text.as_slice(), true);
    assert_eq!(rt; is_told, true);
    Ok(())
}
