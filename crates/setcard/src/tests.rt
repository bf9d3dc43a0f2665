use super::*;
use sc_io::{MemorySink, MemorySource};
use std::alloc::Global;
use std::test::Fail;

const USAGE: &str =
    "usage: setcard solve [--workers N] [--budget N|full] | check | demo N [--size K]\n";

/// A run over memory, in pieces of at most so many bytes.
#[derive(Clone, Copy)]
struct Case<'a> {
    words: &'a [&'a str],
    text: &'a [u8],
    most: usize,
    failing_reads: &'a [u64],
    failing_writes: &'a [u64],
}

fn word_list(alloc: Global, words: &[&str]) -> Result<Vec<String>, Fail> {
    let mut list = Vec::new(alloc);
    for word in words {
        list.push(String::from_str(alloc, word)?)?;
    }
    Ok(list)
}

/// The status, how many verdicts there are, what was written, and how many reads were made.
fn outcome(alloc: Global, case: &Case<'_>) -> Result<(u8, usize, Vec<u8>, u64), Fail> {
    let words = word_list(alloc, case.words)?;
    let text = case.text.to_vec(alloc)?;
    let most = case.most.max(1);
    let mut source = MemorySource::new(text, case.failing_reads.to_vec(alloc)?, most);
    let mut out = MemorySink::new(alloc, case.failing_writes.to_vec(alloc)?, most);
    let ended = run(&(), alloc, &words, &mut source, &mut out, &OpenGate);
    Ok((
        ended.status,
        ended.verdicts.as_slice().len(),
        out.bytes().to_vec(alloc)?,
        source.calls(),
    ))
}

fn solve(alloc: Global, text: &[u8], most: usize) -> Result<(u8, usize, Vec<u8>, u64), Fail> {
    let case = Case {
        words: &["solve"],
        text,
        most,
        failing_reads: &[],
        failing_writes: &[],
    };
    outcome(alloc, &case)
}

#[test]
fn scripts(rt: HostRuntime) -> Result<(), Fail> {
    // The text, the status, the number of verdicts, and what is written.
    let table = [
        ("", 0u8, 0usize, ""),
        (
            "(echo \"a\") ; a comment\n(echo \"b\"\"c\")",
            0,
            0,
            "\"a\"\n\"b\"\"c\"\n",
        ),
        (
            "(set-logic QF_UF)(set-info :status sat)(check-sat)",
            0,
            1,
            "sat\n",
        ),
        ("(assert false)(check-sat)(exit))) rubbish", 0, 1, "unsat\n"),
        (
            "(declare-const p Bool)(declare-fun q () Bool)(check-sat)\n(assert (or p q))(check-sat)\n(assert (not p))(assert (not q))(check-sat)",
            0,
            3,
            "sat\nsat\nunsat\n",
        ),
        (
            "(declare-sort U 0)(declare-const x U)(declare-const |A| (Set U))\n(assert (set.member x A))(check-sat)(assert (not (set.member x A)))(check-sat)",
            0,
            2,
            "sat\nunsat\n",
        ),
        (
            "(echo \"a\")\n(assert (",
            1,
            0,
            "\"a\"\n(error \"line 2: E3 input ends inside a command\")\n",
        ),
        (
            "(echo \"a\")\n\n)",
            1,
            0,
            "\"a\"\n(error \"line 3: E2 unmatched parenthesis\")\n",
        ),
        (
            "(check-sat)\n 007",
            1,
            1,
            "sat\n(error \"line 2: E1 lexical fault\")\n",
        ),
        ("\nexit", 1, 0, "(error \"line 2: E5 malformed command\")\n"),
        ("()", 1, 0, "(error \"line 1: E5 malformed command\")\n"),
        ("(check)", 1, 0, "(error \"line 1: E4 unknown command\")\n"),
        ("(|exit|)", 1, 0, "(error \"line 1: E4 unknown command\")\n"),
        (
            "(get-model)",
            1,
            0,
            "(error \"line 1: E8 outside the profile\")\n",
        ),
        ("(get-proof)", 1, 0, "(error \"line 1: E14 no proof\")\n"),
        (
            "(check-sat)(get-proof)",
            1,
            1,
            "sat\n(error \"line 1: E14 no proof\")\n",
        ),
        (
            "(assert false)(check-sat)\n(declare-const p Bool)(get-proof)",
            1,
            1,
            "unsat\n(error \"line 2: E14 no proof\")\n",
        ),
        (
            "(assert false)(check-sat)\n(assert true)\n(get-proof)",
            1,
            1,
            "unsat\n(error \"line 3: E14 no proof\")\n",
        ),
        (
            "(declare-sort U 1)",
            1,
            0,
            "(error \"line 1: E8 outside the profile\")\n",
        ),
        (
            "(declare-sort set.card 1)",
            1,
            0,
            "(error \"line 1: E9 name already declared or reserved\")\n",
        ),
        (
            "(declare-sort U 0)\n(declare-const U V)",
            1,
            0,
            "(error \"line 2: E9 name already declared or reserved\")\n",
        ),
        (
            "(declare-const x V)",
            1,
            0,
            "(error \"line 1: E6 unknown symbol\")\n",
        ),
        (
            "(declare-fun f (Bool) Bool)",
            1,
            0,
            "(error \"line 1: E8 outside the profile\")\n",
        ),
        (
            "(declare-sort U 0)(declare-const x U)\n(assert\n x)",
            1,
            0,
            "(error \"line 2: E7 wrong sort or number of arguments\")\n",
        ),
        (
            "(check-sat)(assert p)(check-sat)",
            1,
            1,
            "sat\n(error \"line 1: E6 unknown symbol\")\n",
        ),
    ];
    for (text, status, verdicts, written) in table {
        let (got, count, bytes, _) = solve(rt.alloc(), text.as_bytes(), 5)?;
        assert_eq!(rt; got, status, "status of {text}");
        assert_eq!(rt; bytes.as_slice(), written.as_bytes(), "output of {text}");
        assert_eq!(rt; count, verdicts, "verdicts of {text}");
    }
    Ok(())
}

/// So many opening parentheses, and then as many closing ones.
fn nested(alloc: Global, depth: usize) -> Result<Vec<u8>, Fail> {
    let mut text = vec![in alloc; b'('; depth]?;
    for _ in 0..depth {
        text.push(b')')?;
    }
    Ok(text)
}

#[test]
fn limits(rt: HostRuntime) -> Result<(), Fail> {
    for (depth, written) in [
        (1_000, "(error \"line 1: E4 unknown command\")\n"),
        (1_001, "(error \"line 1: E16 limit 1000 passed\")\n"),
    ] {
        let (_, _, bytes, _) = solve(rt.alloc(), &nested(rt.alloc(), depth)?, 4_096)?;
        assert_eq!(rt; bytes.as_slice(), written.as_bytes(), "depth {depth}");
    }
    // A script may have 16,777,216 bytes.
    let blanks = vec![in rt.alloc(); b' '; 16_777_216]?;
    let (status, _, bytes, _) = solve(rt.alloc(), &blanks, 4_096)?;
    assert_eq!(rt; status, 0);
    assert_eq!(rt; bytes.as_slice(), b"".as_slice());
    Ok(())
}

#[test]
fn faults(rt: HostRuntime) -> Result<(), Fail> {
    let script = b"(echo \"ab\")\n(check-sat)\n";
    // The reads and the writes that fail, the status, the verdicts, and what is written.
    let table: [(&[u64], &[u64], u8, usize, &str); 7] = [
        (&[1], &[], 3, 0, ""),
        (&[3], &[], 3, 0, ""),
        (&[9], &[], 3, 0, ""),
        (&[], &[1], 4, 0, ""),
        (&[], &[2], 4, 0, "\"ab"),
        (&[], &[4], 4, 1, "\"ab\"\nsat"),
        (&[100], &[100], 0, 1, "\"ab\"\nsat\n"),
    ];
    for (failing_reads, failing_writes, status, verdicts, written) in table {
        let case = Case {
            words: &["solve", "--budget", "7"],
            text: script,
            most: 3,
            failing_reads,
            failing_writes,
        };
        let (got, count, bytes, _) = outcome(rt.alloc(), &case)?;
        assert_eq!(rt; got, status);
        assert_eq!(rt; count, verdicts);
        assert_eq!(rt; bytes.as_slice(), written.as_bytes());
    }
    Ok(())
}

#[test]
fn command_lines(rt: HostRuntime) -> Result<(), Fail> {
    let lists: [(&[&str], &[u64], u8, &str); 21] = [
        (&["solve"], &[], 0, "\"a\"\n"),
        (&["solve", "--budget", "1"], &[], 0, "\"a\"\n"),
        (&["solve", "--budget=1099511627776"], &[], 0, "\"a\"\n"),
        (&["solve", "--budget=1099511627777"], &[], 2, USAGE),
        (&["solve", "--budget", "0"], &[], 2, USAGE),
        (&["solve", "--budget", "01"], &[], 2, USAGE),
        (&["solve", "--budget", "+1"], &[], 2, USAGE),
        (&["solve", "--budget", "-1"], &[], 2, USAGE),
        (&["solve", "--budget", "full"], &[], 2, USAGE),
        (&["solve", "--budget"], &[], 2, USAGE),
        (&["solve", "--budget="], &[], 2, USAGE),
        (&["--budget", "1", "solve"], &[], 2, USAGE),
        (&[], &[], 2, USAGE),
        (&["--help"], &[], 2, USAGE),
        (&["--budget", "5"], &[], 2, USAGE),
        (&["check", "check"], &[], 2, USAGE),
        (&["check", "--budget", "1"], &[], 2, USAGE),
        (&["Check"], &[], 2, USAGE),
        (&["solve", "solve"], &[], 2, USAGE),
        (&["Solve"], &[], 2, USAGE),
        (&[], &[3], 4, "usage: set"),
    ];
    for (words, failing_writes, status, written) in lists {
        let case = Case {
            words,
            text: b"(echo \"a\")",
            most: 5,
            failing_reads: &[],
            failing_writes,
        };
        let (got, _, bytes, reads) = outcome(rt.alloc(), &case)?;
        assert_eq!(rt; got, status);
        assert_eq!(rt; reads == 0, status != 0);
        assert_eq!(rt; bytes.as_slice(), written.as_bytes());
    }
    Ok(())
}

const ONE_OF_TWO: &str =
    "(declare-const p Bool)(declare-const q Bool)(assert (or p q))(assert (not p))(assert (not q))(check-sat)";

const PIGEONS: &str =
    "(declare-const a1 Bool)(declare-const a2 Bool)(declare-const b1 Bool)(declare-const b2 Bool)(declare-const c1 Bool)(declare-const c2 Bool)
(assert (and (or a1 a2) (or b1 b2) (or c1 c2)))
(assert (not (or (and a1 b1) (and a1 c1) (and b1 c1) (and a2 b2) (and a2 c2) (and b2 c2))))
(check-sat)";

#[test]
fn budgets(rt: HostRuntime) -> Result<(), Fail> {
    // The steps on a branch, the text, and what is written.
    let table = [
        ("100", ONE_OF_TWO, "unsat\n"),
        ("1", ONE_OF_TWO, "unknown\n"),
        ("100", PIGEONS, "unsat\n"),
        ("10", PIGEONS, "unknown\n"),
        (
            "100",
            "(declare-const p Bool)(declare-const q Bool)(assert (xor p q true))(check-sat)(assert (distinct p q))(check-sat)",
            "sat\nunsat\n",
        ),
        (
            "1000",
            "(declare-sort U 0)(declare-const x U)(declare-const A (Set U))(declare-const B (Set U))(assert (ite (set.member x A) (set.member x B) false))(check-sat)(assert (=> (set.member x B) (not (set.member x A))))(check-sat)",
            "sat\nunsat\n",
        ),
    ];
    for (steps, text, written) in table {
        let case = Case {
            words: &["solve", "--budget", steps],
            text: text.as_bytes(),
            most: 4_096,
            failing_reads: &[],
            failing_writes: &[],
        };
        let (status, _, bytes, _) = outcome(rt.alloc(), &case)?;
        assert_eq!(rt; status, 0);
        assert_eq!(rt; bytes.as_slice(), written.as_bytes(), "output of {text}");
    }
    Ok(())
}
