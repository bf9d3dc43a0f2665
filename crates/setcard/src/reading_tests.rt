//! Reading, from text to answers: tokens, top items, the shapes of commands, and the limits.

use super::*;
use sc_io::{MemorySink, MemorySource};
use std::alloc::Global;
use std::test::Fail;

/// The status and what is written for a text that comes in pieces of at most so many bytes, and how
/// many reads were made.
fn solved(alloc: Global, text: Vec<u8>, most: usize) -> Result<(u8, Vec<u8>, u64), Fail> {
    let mut words = Vec::new(alloc);
    words.push(String::from_str(alloc, "solve")?)?;
    let most = most.max(1);
    let mut source = MemorySource::new(text, Vec::new(alloc), most);
    let mut out = MemorySink::new(alloc, Vec::new(alloc), 4_096);
    let ended = run(&(), alloc, &words, &mut source, &mut out, &OpenGate);
    Ok((ended.status, out.bytes().to_vec(alloc)?, source.calls()))
}

const LEXICAL: &str = "(error \"line 1: E1 lexical fault\")\n";

const MALFORMED: &str = "(error \"line 1: E5 malformed command\")\n";

const UNKNOWN: &str = "(error \"line 1: E4 unknown command\")\n";

const OUTSIDE: &str = "(error \"line 1: E8 outside the profile\")\n";

/// A text, and what is written for it.
const TEXTS: [(&str, &str); 50] = [
    // Every form of token, and what is none.
    (
        "(set-info :a (b |c d| \"e\"\"f\" 12 0 2.60 #x0F #b01 :g <=))",
        "",
    ),
    ("(set-info :a 007)", LEXICAL),
    ("(set-info :a 3x)", LEXICAL),
    ("(set-info :a 2.6.1)", LEXICAL),
    ("(set-info :a 2.)", LEXICAL),
    ("(set-info :a #x)", LEXICAL),
    ("(set-info :a #b2)", LEXICAL),
    ("(set-info :a #)", LEXICAL),
    ("#", LEXICAL),
    ("(set-info :a #x0F)", ""),
    ("(set-info :a {)", LEXICAL),
    ("(set-info : a)", LEXICAL),
    // Quoted symbols and literals may have line feeds, which count.
    (
        "(set-info :a |b\nc|)\n(check)",
        "(error \"line 3: E4 unknown command\")\n",
    ),
    (
        "(echo \"a\nb\")\n(check)",
        "\"a\nb\"\n(error \"line 3: E4 unknown command\")\n",
    ),
    ("(set-info :a |b\\|)", LEXICAL),
    ("(set-info :a |b\\c|)", LEXICAL),
    ("(echo \"a\"\"b\")", "\"a\"\"b\"\n"),
    ("(echo \"\")", "\"\"\n"),
    // A comment ends with a carriage return, a line feed or the text.
    (
        "(echo \"a\"); (\r(echo \"b\"); )\n(echo \"c\"); \"",
        "\"a\"\n\"b\"\n\"c\"\n",
    ),
    ("(echo \"a\") (echo \"b\")", "\"a\"\n\"b\"\n"),
    // What isn't closed or opened.
    (
        "(assert (",
        "(error \"line 1: E3 input ends inside a command\")\n",
    ),
    (
        "(echo \"a\")\n(echo\n\"b",
        "\"a\"\n(error \"line 2: E3 input ends inside a command\")\n",
    ),
    (")", "(error \"line 1: E2 unmatched parenthesis\")\n"),
    (
        "(echo \"a\"))\n(echo \"b\")",
        "\"a\"\n(error \"line 1: E2 unmatched parenthesis\")\n",
    ),
    // A top item that is no list, or an empty one.
    ("exit", MALFORMED),
    ("12", MALFORMED),
    ("\"a\"", MALFORMED),
    ("()", MALFORMED),
    // Unknown commands, and those that are left out or not done.
    ("(asserts true)", UNKNOWN),
    ("(|check-sat|)", UNKNOWN),
    ("(\"exit\")", UNKNOWN),
    ("(let)", UNKNOWN),
    ("((exit))", UNKNOWN),
    ("(get-assertions)", OUTSIDE),
    ("(define-sort A () Bool)", OUTSIDE),
    ("(push 1)", OUTSIDE),
    ("(get-unsat-core rubbish)", OUTSIDE),
    // Wrong shapes.
    ("(assert)", MALFORMED),
    ("(assert true true)", MALFORMED),
    ("(check-sat 1)", MALFORMED),
    ("(echo a)", MALFORMED),
    ("(set-logic \"ALL\")", MALFORMED),
    ("(set-info a b)", MALFORMED),
    ("(set-info :a)", MALFORMED),
    ("(declare-sort U)", MALFORMED),
    ("(declare-const x 1)", MALFORMED),
    ("(declare-fun f Bool Bool)", MALFORMED),
    // Nothing behind the exit counts, and a fault takes nothing back.
    ("(exit) )) \"rubbish", ""),
    ("(echo \"a\")\n(exit)\n007", "\"a\"\n"),
    (
        "(check-sat)\n(echo \"a\")\n(echo \"b\" #)",
        "sat\n\"a\"\n(error \"line 3: E1 lexical fault\")\n",
    ),
];

#[test]
fn texts(rt: HostRuntime) -> Result<(), Fail> {
    for (text, written) in TEXTS {
        for most in [1, 7, 4_096] {
            let (_, bytes, _) = solved(rt.alloc(), text.as_bytes().to_vec(rt.alloc())?, most)?;
            assert_eq!(rt; bytes.as_slice(), written.as_bytes(), "output of {text}");
        }
    }
    Ok(())
}

/// The text with the limit of a script passed: more bytes than 16,777,216, the first of which may
/// begin a token.
fn too_long(alloc: Global, first: u8, length: usize) -> Result<Vec<u8>, Fail> {
    let mut text = vec![in alloc; first; 1]?;
    text.extend_from_slice(vec![in alloc; b' '; length]?.as_slice())?;
    Ok(text)
}

#[test]
fn a_byte_too_many(rt: HostRuntime) -> Result<(), Fail> {
    // Between items, in a comment, in a list, in a literal and in a quoted symbol. One byte past the
    // limit is read, and no more.
    for first in [b' ', b';', b'(', b'"', b'|'] {
        for length in [16_777_216, 16_777_300] {
            let text = too_long(rt.alloc(), first, length)?;
            let (status, bytes, reads) = solved(rt.alloc(), text, 4_096)?;
            assert_eq!(rt; status, 1);
            assert_eq!(rt; reads, 4_097);
            assert_eq!(rt;
                bytes.as_slice(),
                b"(error \"line 1: E16 limit 16777216 passed\")\n".as_slice()
            );
        }
    }
    Ok(())
}

/// A thousand commands: 500 elements of a set and their memberships, and behind them these commands.
fn thousand(alloc: Global, behind: &str) -> Result<Vec<u8>, Fail> {
    let mut text = b"(declare-sort U 0)(declare-const A (Set U))\n".to_vec(alloc)?;
    for first in b"abcdefghijklmnopqrst" {
        for second in b"abcdefghijklmnopqrstuvwxy" {
            let name = [b'k', *first, *second];
            text.extend_from_slice(b"(declare-const ")?;
            text.extend_from_slice(&name)?;
            text.extend_from_slice(b" U)(assert (set.member ")?;
            text.extend_from_slice(&name)?;
            text.extend_from_slice(b" A))\n")?;
        }
    }
    text.extend_from_slice(behind.as_bytes())?;
    Ok(text)
}

#[test]
fn a_thousand_commands(rt: HostRuntime) -> Result<(), Fail> {
    for (behind, written) in [
        ("(check-sat)", "sat\n"),
        ("(assert (not (set.member kty A)))(check-sat)", "unsat\n"),
        (
            "(check-sat)(assert (not (set.member kaa A)))(check-sat)",
            "sat\nunsat\n",
        ),
    ] {
        let (status, bytes, _) = solved(rt.alloc(), thousand(rt.alloc(), behind)?, 4_096)?;
        assert_eq!(rt; status, 0);
        assert_eq!(rt; bytes.as_slice(), written.as_bytes());
    }
    Ok(())
}
