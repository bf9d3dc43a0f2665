//! Tests of the splitter.

ghost use Rattle.std.specs.Prelude.{◌≡◌};

use super::*;
use crate::item::Last;
use crate::lines::lines_of;
use std::alloc::Global;
use std::test::Fail;

/// Notes the items that have come whole, each with its line, and the end. Whether there was one.
fn note(alloc: Global, splitter: &mut Splitter, out: &mut String) -> Result<bool, Fail>
    ensures { splitter.new.last ≡ splitter.old.last }
{
    for _ in 0..1000 {
        match splitter.next_item() {
            Item::Top { line } => {
                let text = string_of(alloc, splitter.item())?;
                out.push_str(format!(in alloc; "{line}:{text} ")?.as_str())?;
            }
            Item::More => return Ok(false),
            Item::End => {
                out.push_str(".")?;
                return Ok(true);
            }
            Item::Bad(fault) => {
                out.push_str(format!(in alloc; "{fault:?}")?.as_str())?;
                return Ok(true);
            }
        }
    }
    Ok(true)
}

/// The items of a text in pieces of so many bytes.
fn items(alloc: Global, text: &[u8], size: usize, limit: u64) -> Result<String, Fail> {
    let mut out = String::new(alloc);
    if size == 0 || limit > 1000 {
        return Ok(out);
    }
    let mut splitter = Splitter::new(alloc, limit);
    for piece in text.chunks(size) {
        if splitter.feed(piece).is_err() || note(alloc, &mut splitter, &mut out)? {
            return Ok(out);
        }
    }
    splitter.finish();
    note(alloc, &mut splitter, &mut out)?;
    Ok(out)
}

fn string_of(alloc: Global, bytes: &[u8]) -> Result<String, Fail> {
    let mut out = String::new(alloc);
    for byte in bytes {
        out.push(char::from(*byte))?;
    }
    Ok(out)
}

/// How many trees the first item of a text has, where it is a list that the text holds whole.
fn first_len(alloc: Global, text: &[u8]) -> Option<usize> {
    let mut splitter = Splitter::new(alloc, 10_000);
    splitter.feed(text).ok()?;
    let Item::Top { line } = splitter.next_item() else {
        return None;
    };
    match read_tree(alloc, splitter.item(), line).ok()? {
        Tree::Leaf(_) => None,
        Tree::List(items) => Some(items.len()),
    }
}

#[test]
fn in_any_pieces(rt: HostRuntime) -> Result<(), Fail> {
    let alloc = rt.alloc();
    let cases: [(&[u8], u64, &str); 10] = [
        (
            b" (a ; )\n(b)) x\"y\"|z| ;c\n(\"(\" 12)",
            100,
            "1:(a ; )\n(b)) 2:x 2:\"y\" 2:|z| 3:(\"(\" 12) .",
        ),
        (b"a\n(b", 100, "1:a Unclosed { line: 2 }"),
        (b"(a\n\"b", 100, "Unclosed { line: 1 }"),
        (b"(a\n2.", 100, "Lexical { line: 2 }"),
        (b"(a)\n)", 100, "1:(a) Unmatched { line: 2 }"),
        (b"(a)\n(bc)", 6, "1:(a) Limit { line: 2, number: 6 }"),
        (b"(a)\n(bc)", 8, "1:(a) 2:(bc) ."),
        (b"a )", 1, "1:a Limit { line: 1, number: 1 }"),
        (b"ab )", 1, "Limit { line: 1, number: 1 }"),
        (b"\"a\nb\" c", 5, "1:\"a\nb\" Limit { line: 2, number: 5 }"),
    ];
    for size in 1..40 {
        for (text, limit, wanted) in cases {
            assert_eq!(rt; items(alloc, text, size, limit)?.as_str(), wanted);
        }
    }
    Ok(())
}

#[test]
fn trees(rt: HostRuntime) -> Result<(), Fail> {
    let alloc = rt.alloc();
    assert_eq!(rt; first_len(alloc, b" ((a b) () |c|) d"), Some(3));
    assert_eq!(rt; first_len(alloc, b"()"), Some(0));
    assert_eq!(rt; first_len(alloc, b"a "), None);
    let mut deep = Vec::new(alloc);
    for _ in 0..1000 {
        deep.push(b'(')?;
    }
    for _ in 0..1000 {
        deep.push(b')')?;
    }
    assert_eq!(rt; first_len(alloc, deep.as_slice()), Some(1));
    Ok(())
}

/// What the last item has after a further piece, and how many bytes are kept then.
fn after_feed(alloc: Global, first: &[u8], second: &[u8]) -> Result<(String, u64), Fail> {
    let mut splitter = Splitter::new(alloc, 100);
    let mut out = String::new(alloc);
    if splitter.feed(first).is_err() {
        return Ok((out, 0));
    }
    let Item::Top { .. } = splitter.next_item() else {
        return Ok((out, 0));
    };
    if splitter.feed(second).is_err() {
        return Ok((out, 0));
    }
    splitter.go_on(2);
    out = string_of(alloc, splitter.item())?;
    out.push_str(format!(in alloc; " {:?}", splitter.next_item())?.as_str())?;
    let held = splitter.held();
    Ok((out, held))
}

#[test]
fn items_stay(rt: HostRuntime) -> Result<(), Fail> {
    let alloc = rt.alloc();
    let (text, held) = after_feed(alloc, b"  (a)(b", b")")?;
    assert_eq!(rt; text.as_str(), "(a) Bad(Limit { line: 1, number: 2 })");
    assert!(rt; held <= 8);
    Ok(())
}

fn bytes_of(alloc: Global, bytes: &[u8]) -> Result<Vec<u8>, Fail> {
    let mut out = Vec::new(alloc);
    out.extend_from_slice(bytes)?;
    Ok(out)
}

#[test]
fn lines_in_pieces(rt: HostRuntime) -> Result<(), Fail> {
    let alloc = rt.alloc();
    let mut pieces = Vec::new(alloc);
    pieces.push(bytes_of(alloc, b"a (b")?)?;
    pieces.push(bytes_of(alloc, b"\n) c")?)?;
    match lines_of(alloc, pieces.as_slice(), 100) {
        Ok((lines, last)) => {
            assert_eq!(rt; lines.as_slice(), [1, 1, 2].as_slice());
            assert_eq!(rt; last, Last::End);
        }
        Err(Memory) => assert!(rt; false),
    }
    Ok(())
}
