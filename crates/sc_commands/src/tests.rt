//! Tests of the reader of commands.

use super::*;
use sc_sexpr::{Item, Splitter, read_tree};
use sc_text::Code;
use std::alloc::Global;
use std::test::Fail;

fn push_bytes(out: &mut String, bytes: &[u8]) -> Result<(), Fail> {
    for byte in bytes {
        out.push(char::from(*byte))?;
    }
    Ok(())
}

/// A word for what was read, and then its name or its literal.
fn tell(out: &mut String, read: Result<Command<'_>, Code>) -> Result<(), Fail> {
    let (word, text): (&str, &[u8]) = match read {
        Ok(Command::SetLogic) => ("logic", b""),
        Ok(Command::SetInfo) => ("info", b""),
        Ok(Command::DeclareSort { name, .. }) => ("sort ", name),
        Ok(Command::DeclareConst { name, .. }) => ("const ", name),
        Ok(Command::DeclareFun { name, .. }) => ("fun ", name),
        Ok(Command::Assert { .. }) => ("assert", b""),
        Ok(Command::CheckSat) => ("check", b""),
        Ok(Command::GetProof) => ("proof", b""),
        Ok(Command::Echo { literal }) => ("echo ", literal),
        Ok(Command::Exit) => ("exit", b""),
        Err(Code::E4) => ("E4", b""),
        Err(Code::E5) => ("E5", b""),
        Err(Code::E8) => ("E8", b""),
        Err(_) => ("another code", b""),
    };
    out.push_str(word)?;
    push_bytes(out, text)
}

/// What the first item of a text is.
fn told(alloc: Global, text: &[u8]) -> Result<String, Fail> {
    let mut out = String::new(alloc);
    let mut splitter = Splitter::new(alloc, 1000);
    if splitter.feed(text).is_err() {
        return Ok(out);
    }
    let Item::Top { line } = splitter.next_item() else {
        return Ok(out);
    };
    if let Ok(tree) = read_tree(alloc, splitter.item(), line) {
        tell(&mut out, read_command(tree))?;
    }
    Ok(out)
}

#[test]
fn commands(rt: HostRuntime) -> Result<(), Fail> {
    let cases: [(&[u8], &str); 33] = [
        (b"exit ", "E5"),
        (b"()", "E5"),
        (b"((exit))", "E4"),
        (b"(|exit|)", "E4"),
        (b"(\"exit\")", "E4"),
        (b"(let)", "E4"),
        (b"(get-assertions 1)", "E8"),
        (b"(define-sort)", "E8"),
        (b"(set-logic QF_UF)", "logic"),
        (b"(set-logic QF_UF LIA)", "E5"),
        (b"(set-logic assert)", "E5"),
        (b"(set-info :version 2.6)", "info"),
        (b"(set-info :version)", "E5"),
        (b"(set-info version 2.6)", "E5"),
        (b"(declare-sort |a b| 0)", "sort a b"),
        (b"(declare-sort U)", "E5"),
        (b"(declare-sort U u)", "E5"),
        (b"(declare-const |let| (Set U))", "const let"),
        (b"(declare-const let U)", "E5"),
        (b"(declare-const c 1)", "E5"),
        (b"(declare-fun f (U ()) |U|)", "fun f"),
        (b"(declare-fun f (U :u) U)", "E5"),
        (b"(declare-fun f U U)", "E5"),
        (b"(assert as)", "assert"),
        (b"(assert)", "E5"),
        (b"(check-sat)", "check"),
        (b"(check-sat ())", "E5"),
        (b"(get-proof)", "proof"),
        (b"(get-proof 1)", "E5"),
        (b"(echo \"a\"\"b\")", "echo \"a\"\"b\""),
        (b"(echo a)", "E5"),
        (b"(exit)", "exit"),
        (b"(exit 0)", "E5"),
    ];
    for (text, wanted) in cases {
        assert_eq!(rt; told(rt.alloc(), text)?.as_str(), wanted);
    }
    Ok(())
}
