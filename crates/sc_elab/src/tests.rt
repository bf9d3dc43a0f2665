//! Tests of the reading of terms and sorts.

ghost use Rattle.std.specs.Prelude.{IfSome, IfOk};
ghost use Rattle.sc_stack.specs.Names.{IsSort};

use super::*;
use crate::tables::{
    CONSTANTS, ELEMENTS, EQUATIONS, FORMS, JOINS, OPERATORS, SORTS, TOKENS_AND_HEADS,
};
use sc_sexpr::{Item, Splitter, Tree, read_tree};
use sc_stack::Stack;
use sc_terms::{Bank, Sort};
use sc_text::Code;
use std::alloc::Global;
use std::process::Abort;
use std::test::Fail;

fn word(code: Code) -> &'static str {
    match code {
        Code::E5 => "E5",
        Code::E6 => "E6",
        Code::E7 => "E7",
        Code::E8 => "E8",
        Code::E16(1000) => "E16 of depth",
        Code::E16(200_000) => "E16 of terms",
        _ => "another code",
    }
}

/// The sort that the first item of a text is.
fn sort_in(alloc: Global, stack: &Stack, text: &[u8]) -> Option<Result<Sort, Code>>
    ensures { IfSome result (λ answer. IfOk answer (λ sort. IsSort stack.now sort)) }
{
    read_sorts_are_declared();
    let mut splitter = Splitter::new(alloc, 1000);
    if splitter.feed(text).is_err() {
        return None;
    }
    let Item::Top { line } = splitter.next_item() else {
        return None;
    };
    match read_tree(alloc, splitter.item(), line) {
        Ok(tree) => Some(read_sort(&tree, stack)),
        Err(_) => None,
    }
}

fn declare(rt: &impl Abort, alloc: Global, stack: &mut Stack, name: &[u8], sort: &[u8]) {
    match sort_in(alloc, stack, sort) {
        Some(Ok(sort)) => assert!(rt; stack.declare(name, sort).is_ok()),
        _ => assert!(rt; false),
    }
}

/// Three Bool constants, elements and sets of two sorts, an integer and a set of integers.
fn names(rt: &impl Abort, alloc: Global) -> Stack {
    let mut stack = Stack::new(alloc);
    assert!(rt; stack.declare_sort(b"U").is_ok());
    assert!(rt; stack.declare_sort(b"V").is_ok());
    assert!(rt; stack.declare(b"i", Sort::Int).is_ok());
    assert!(rt; stack.declare(b"S", Sort::SetInt).is_ok());
    for (name, sort) in CONSTANTS {
        declare(rt, alloc, &mut stack, name.as_bytes(), sort.as_bytes());
    }
    stack
}

/// The number of a term's core formula, or what the fault is, and how many nodes the bank then has.
fn answered(alloc: Global, tree: &Tree<'_>, stack: &Stack) -> (u32, &'static str, usize) {
    let mut bank = Bank::new(alloc);
    match elaborate(alloc, tree, stack, &mut bank) {
        Ok(number) => (number, "", bank.len()),
        Err(ElabError::Fault(code)) => (0, word(code), bank.len()),
        Err(ElabError::Memory) => (0, "no memory", bank.len()),
    }
}

/// The same for the first item of a text.
fn outcome(alloc: Global, stack: &Stack, text: &[u8]) -> (u32, &'static str, usize) {
    let mut splitter = Splitter::new(alloc, 1_000_000);
    if splitter.feed(text).is_err() {
        return (0, "no memory", 0);
    }
    let Item::Top { line } = splitter.next_item() else {
        return (0, "no item", 0);
    };
    match read_tree(alloc, splitter.item(), line) {
        Ok(tree) => answered(alloc, &tree, stack),
        Err(_) => (0, "no memory", 0),
    }
}

/// The outcome in words.
fn told(alloc: Global, stack: &Stack, text: &[u8]) -> Result<String, Fail> {
    let (number, fault, count) = outcome(alloc, stack, text);
    if fault.is_empty() {
        Ok(format!(in alloc; "{number} of {count}")?)
    } else {
        Ok(format!(in alloc; "{fault} at {count}")?)
    }
}

fn tell_all(
    rt: &impl Abort,
    alloc: Global,
    stack: &Stack,
    cases: &[(&str, &str)],
) -> Result<(), Fail> {
    for (text, wanted) in cases {
        assert_eq!(rt; told(alloc, stack, text.as_bytes())?.as_str(), *wanted);
    }
    Ok(())
}

fn tell_sorts(rt: &impl Abort, alloc: Global, stack: &Stack, cases: &[(&str, &str)]) {
    for (text, wanted) in cases {
        match sort_in(alloc, stack, text.as_bytes()) {
            Some(Err(code)) => assert_eq!(rt; word(code), *wanted),
            _ => assert!(rt; false),
        }
    }
}

/// A text that repeats a part between two others.
fn repeated(
    alloc: Global,
    before: &str,
    part: &str,
    count: usize,
    after: &str,
) -> Result<String, Fail> {
    let mut out = String::new(alloc);
    out.push_str(before)?;
    for _ in 0..count {
        out.push_str(part)?;
    }
    out.push_str(after)?;
    Ok(out)
}

/// So many negations of a term.
fn negated(alloc: Global, count: usize) -> Result<String, Fail> {
    let opened = repeated(alloc, "", "(not ", count, "p")?;
    repeated(alloc, opened.as_str(), ")", count, "")
}

/// An inclusion of so many unions, each within the one before.
fn united(alloc: Global, count: usize) -> Result<String, Fail> {
    let opened = repeated(alloc, "(set.subset ", "(set.union A ", count, "B")?;
    repeated(alloc, opened.as_str(), ")", count, " A)")
}

/// Tells what a text comes to that was made.
fn tell_made(
    rt: &impl Abort,
    alloc: Global,
    stack: &Stack,
    made: Result<String, Fail>,
    wanted: &str,
) -> Result<(), Fail> {
    let text = made?;
    assert_eq!(rt; told(alloc, stack, text.as_bytes())?.as_str(), wanted);
    Ok(())
}

/// The limits on depth and on distinct terms, each met and passed.
fn tell_limits(rt: &impl Abort, alloc: Global, stack: &Stack) -> Result<(), Fail> {
    tell_made(rt, alloc, stack, negated(alloc, 999), "1000 of 1000")?;
    let deeper = negated(alloc, 1000);
    tell_made(rt, alloc, stack, deeper, "E16 of depth at 1000")?;
    tell_made(rt, alloc, stack, united(alloc, 998), "1004 of 1004")?;
    let wide = repeated(alloc, "(and q", " p", 100_000, ")");
    tell_made(rt, alloc, stack, wide, "3 of 3")?;
    let over = repeated(alloc, "(and (xor q", " p", 100_000, ") z)");
    tell_made(rt, alloc, stack, over, "E16 of terms at 200000")
}

fn tell_tables(rt: &impl Abort, alloc: Global, stack: &Stack) -> Result<(), Fail> {
    tell_sorts(rt, alloc, stack, &SORTS);
    tell_all(rt, alloc, stack, &TOKENS_AND_HEADS)?;
    tell_all(rt, alloc, stack, &FORMS)?;
    tell_all(rt, alloc, stack, &OPERATORS)?;
    tell_all(rt, alloc, stack, &EQUATIONS)?;
    tell_all(rt, alloc, stack, &JOINS)?;
    tell_all(rt, alloc, stack, &ELEMENTS)
}

#[test]
fn terms_and_sorts(rt: HostRuntime) -> Result<(), Fail> {
    let stack = names(&rt, rt.alloc());
    tell_tables(&rt, rt.alloc(), &stack)?;
    tell_limits(&rt, rt.alloc(), &stack)
}
