//! Tests of what is printed.

use super::*;
use sc_text::Code;
use std::alloc::Global;
use std::test::Fail;

/// What is printed behind a byte that stands already.
fn buffer(alloc: Global) -> Result<Vec<u8>, Fail> {
    Ok(Vec::from_slice(alloc, b">")?)
}

#[test]
fn numbers(rt: HostRuntime) -> Result<(), Fail> {
    let cases: [(i128, &str); 5] = [
        (0, ">0"),
        (3, ">3"),
        (-1, ">(- 1)"),
        (i128::MAX, ">170141183460469231731687303715884105727"),
        (i128::MIN, ">(- 170141183460469231731687303715884105728)"),
    ];
    for (n, expected) in cases.iter() {
        let mut out = buffer(rt.alloc())?;
        assert_eq!(rt; number(&mut out, *n), Ok(()));
        assert_eq!(rt; out.as_slice(), expected.as_bytes());
    }
    Ok(())
}

#[test]
fn symbols(rt: HostRuntime) -> Result<(), Fail> {
    let cases: [(&str, &str, &str); 7] = [
        ("U", ">U", ">(as @U_-3 U)"),
        (
            "set.member",
            ">set.member",
            ">(as @set.member_-3 set.member)",
        ),
        ("a b", ">|a b|", ">(as |@a b_-3| |a b|)"),
        ("as", ">|as|", ">(as @as_-3 |as|)"),
        (
            "get-model",
            ">|get-model|",
            ">(as @get-model_-3 |get-model|)",
        ),
        ("3x", ">|3x|", ">(as @3x_-3 |3x|)"),
        ("", ">||", ">(as @_-3 ||)"),
    ];
    for (name, bare, value) in cases.iter() {
        let mut out = buffer(rt.alloc())?;
        assert_eq!(rt; symbol(&mut out, name.as_bytes()), Ok(()));
        assert_eq!(rt; out.as_slice(), bare.as_bytes());
        let mut out = buffer(rt.alloc())?;
        assert_eq!(rt; abstract_value(&mut out, name.as_bytes(), -3), Ok(()));
        assert_eq!(rt; out.as_slice(), value.as_bytes());
    }
    Ok(())
}

#[test]
fn errors(rt: HostRuntime) -> Result<(), Fail> {
    let cases: [(Code, &str); 15] = [
        (Code::E1, "E1 lexical fault"),
        (Code::E2, "E2 unmatched parenthesis"),
        (Code::E3, "E3 input ends inside a command"),
        (Code::E4, "E4 unknown command"),
        (Code::E5, "E5 malformed command"),
        (Code::E6, "E6 unknown symbol"),
        (Code::E7, "E7 wrong sort or number of arguments"),
        (Code::E8, "E8 outside the profile"),
        (Code::E9, "E9 name already declared or reserved"),
        (Code::E10, "E10 number too wide"),
        (Code::E11, "E11 non-linear product"),
        (Code::E12, "E12 pop below the first level"),
        (Code::E13, "E13 no model"),
        (Code::E14, "E14 no proof"),
        (Code::E16(12), "E16 limit 12 passed"),
    ];
    for (code, text) in cases.iter() {
        let mut out = buffer(rt.alloc())?;
        assert_eq!(rt; error_line(&mut out, 6, *code), Ok(()));
        let mut expected = Vec::from_slice(rt.alloc(), b">(error \"line 6: ")?;
        expected.extend_from_slice(text.as_bytes())?;
        expected.extend_from_slice(b"\")\n")?;
        assert_eq!(rt; out.as_slice(), expected.as_slice());
    }
    Ok(())
}
