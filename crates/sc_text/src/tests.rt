//! Tests of the lexer and of the names.

use super::*;
use std::alloc::Global;
use std::test::Fail;

fn letter(kind: Kind) -> &'static str {
    match kind {
        Kind::Left => "L",
        Kind::Right => "R",
        Kind::Numeral => "N",
        Kind::Foreign => "F",
        Kind::Literal => "S",
        Kind::Word => "W",
        Kind::Quoted => "Q",
        Kind::Keyword => "K",
    }
}

/// A letter for each token, and then how the text ends.
fn kinds(alloc: Global, text: &[u8], last: bool) -> Result<String, Fail> {
    let mut out = String::new(alloc);
    if text.len() > 1000 {
        return Ok(out);
    }
    let mut lexer = Lexer::over(text, 0, 1, last);
    for _ in 0..100 {
        let end = match lexer.next() {
            Next::Token(token) => {
                out.push_str(letter(token.kind))?;
                continue;
            }
            Next::End => ".",
            Next::Partial => "?",
            Next::Bad { .. } => "!",
        };
        out.push_str(end)?;
        break;
    }
    Ok(out)
}

#[test]
fn texts(rt: HostRuntime) -> Result<(), Fail> {
    let cases: [(&[u8], bool, &str); 25] = [
        (
            b"(a |b c| \"d\"\"e\" 12 0 2.60 #x0F #b01 :k)",
            true,
            "LWQSNNFFFKR.",
        ),
        (b"; c\n a;d\r b ; e", true, "WW."),
        (b"a\n007", true, "W!"),
        (b"3x", true, "!"),
        (b"2.6.1", true, "!"),
        (b"2.", true, "!"),
        (b"#x )", true, "!"),
        (b"#x", true, "!"),
        (b"#b2", true, "!"),
        (b"#", true, "!"),
        (b"# a", true, "!"),
        (b"#x0G", true, "!"),
        (b"#b012", true, "!"),
        (b": a", true, "!"),
        (b"|a\\b|", true, "!"),
        (b"|a\\|", true, "!"),
        (b"\"a\nb", true, "!"),
        (b"a{", true, "W!"),
        (b"(a", false, "L?"),
        (b"(a ", false, "LW."),
        (b"; a", false, "?"),
        (b"\"a\"", false, "?"),
        (b"|a|", false, "Q."),
        (b"00", false, "!"),
        (b"2.", false, "?"),
    ];
    for (text, last, expected) in cases.iter() {
        assert_eq!(rt; kinds(rt.alloc(), text, *last)?.as_str(), *expected);
    }
    Ok(())
}

/// The place and the line that come next, and whether they are those of a token.
fn place(lexer: &mut Lexer<'_>) -> Option<(bool, u64, u64)> {
    match lexer.next() {
        Next::Token(token) => Some((true, token.start, token.line)),
        Next::Bad { start, line } => Some((false, start, line)),
        Next::End | Next::Partial => None,
    }
}

#[test]
fn places(rt: HostRuntime) -> Result<(), Fail> {
    let mut lexer = Lexer::over(b"\n; c\n |a\nb| {", 10, 3, true);
    assert_eq!(rt; place(&mut lexer), Some((true, 16, 5)));
    assert_eq!(rt; place(&mut lexer), Some((false, 22, 6)));
    assert_eq!(rt; place(&mut lexer), Some((false, 22, 6)));
    Ok(())
}

#[test]
fn names(rt: HostRuntime) -> Result<(), Fail> {
    let cases: [(&str, bool, bool); 9] = [
        ("a", true, true),
        ("/", true, true),
        ("union", true, true),
        ("assert", false, true),
        ("get-unsat-core", false, true),
        ("set.fold", false, false),
        ("true", false, false),
        ("@a", false, false),
        (".b", false, false),
    ];
    for (name, bare, in_bars) in cases.iter() {
        assert_eq!(rt; is_free(name.as_bytes()), *bare);
        assert_eq!(rt; is_free_in_bars(name.as_bytes()), *in_bars);
    }
    Ok(())
}
