//! Judging the derivations of a transcript.

ghost use Rattle.std.specs.Prelude.{◌≡◌, ◌+◌, ◌<◌, ◌^◌, true, length, slice_get, option_map, IfOk};
ghost use Rattle.sc_sexpr.specs.Shapes.{shape};
ghost use Rattle.sc_sexpr.specs.Trees.{IsItem};
ghost use Rattle.sc_check.specs.Lines as lines;
ghost use Rattle.sc_check.specs.Judging as judging;

use crate::ending::Ending;
use crate::finding::{Finding, finding_line, is_accepted};
use crate::follow::Asked;
use sc_deriv::{Judgement, accepts_closed_trees, check, refuses_first_failure};
use sc_deriv_text::{TextError, read};
use sc_flatten::prepare;
use sc_io::{PutError, Sink, put_all};
use sc_session::{Session, fault_line};
use sc_sexpr::{Item, Splitter, Tree, read_tree};
use sc_terms::{Memory, Numbers};
use sc_text::Kind;
use std::alloc::Global;

/// Whether the tree is a list headed by the bare word `derivation`.
fn is_derivation(tree: &Tree<'_>) -> bool
    ensures { result ≡ lines.is_derivation (shape tree.now) }
{
    let Tree::List(items) = tree else {
        return false;
    };
    match items.as_slice().first() {
        Some(Tree::Leaf(head)) => head.kind == Kind::Word && head.text == b"derivation".as_slice(),
        _ => false,
    }
}

/// The judgement of a derivation against these assertions.
fn judge(
    alloc: Global,
    session: &Session,
    assertions: &Numbers,
    tree: &Tree<'_>,
) -> Result<Judgement, Memory>
    requires { judging.AreOf session.now assertions.now }
    ensures { IfOk result (λ j. j ≡ judging.judgement session.now assertions.now (shape tree.now)) }
{
    accepts_closed_trees();
    refuses_first_failure();
    match read(alloc, tree) {
        Ok(derivation) => {
            let problem = prepare(alloc, session.bank(), assertions.as_slice())?;
            check(alloc, &problem, &derivation)
        }
        Err(TextError::Refused { node, reason }) => Ok(Judgement::Refused { node, reason }),
        Err(TextError::Memory) => Err(Memory),
    }
}

/// What is found of a derivation, for which a `get-proof` asks with these assertions.
fn find(
    alloc: Global,
    session: &Session,
    assertions: Option<&Numbers>,
    tree: &Tree<'_>,
) -> Result<Finding, Memory>
    requires { judging.AreOfAll session.now (option_map (λ a. a.now) assertions) }
    ensures { IfOk result (λ f. f ≡ lines.finding session.now.bank (option_map (λ a. a.now) assertions.entry) (shape tree.now)) }
{
    match assertions {
        Some(assertions) => Ok(Finding::Judged(judge(alloc, session, assertions, tree)?)),
        None => Ok(Finding::Unasked),
    }
}

/// How many derivations there were, and whether one was refused.
#[derive(Clone, Copy)]
pub(crate) struct Count {
    pub(crate) number: u64,
    pub(crate) refused: bool,
}

/// Judges a derivation, for which a `get-proof` asks with these assertions, and writes its line.
fn tell<O: Sink>(
    alloc: Global,
    session: &Session,
    assertions: Option<&Numbers>,
    tree: &Tree<'_>,
    count: &mut Count,
    out: &mut O,
) -> Result<(), Ending>
    requires { judging.AreOfAll session.now (option_map (λ a. a.now) assertions) }
    ensures { judging.TellGives (lines.finding session.now.bank (option_map (λ a. a.now) assertions.entry) (shape tree.now)) count.old count.new (O.moment out.old) (O.moment out.new) result }
{
    let Ok(finding) = find(alloc, session, assertions, tree) else {
        return Err(Ending::Memory);
    };
    let Some(number) = count.number.checked_add(1) else {
        return Err(Ending::Memory);
    };
    let Ok(line) = finding_line(alloc, number, &finding) else {
        return Err(Ending::Memory);
    };
    if let Err(error) = put_all(out, line.as_slice()) {
        return Err(of_writing(error));
    }
    count.number = number;
    count.refused = count.refused || !is_accepted(&finding);
    Ok(())
}

/// How a piece that isn't written whole ends the run.
fn of_writing(error: PutError) -> Ending
    ensures { result ≡ judging.of_writing error }
{
    match error {
        PutError::Sink => Ending::WriteFault,
        PutError::Memory => Ending::Memory,
    }
}

/// Judges an item, where it is a derivation. All else is passed over.
fn judge_item<O: Sink>(
    alloc: Global,
    session: &Session,
    asked: &Asked,
    text: &[u8],
    line: u64,
    count: &mut Count,
    out: &mut O,
) -> Result<(), Ending>
    requires fits { line + length text.now < 2 ^ 64 }
    requires item { IsItem text.now line }
    requires formulas { judging.AreAllOf session.now asked.now }
    ensures { judging.ItemGives session.now.bank asked.now (record { text = text.now; line = line }) count.old count.new (O.moment out.old) (O.moment out.new) result }
{
    let Ok(tree) = read_tree(alloc, text, line) else {
        return Err(Ending::Memory);
    };
    if !is_derivation(&tree) {
        return Ok(());
    }
    let assertions = asked.as_slice().get(count.number as usize);
    tell(alloc, session, assertions, &tree, count, out)
}

/// Writes the line of an error, which ends the check.
pub(crate) fn refuse<O: Sink>(line: &[u8], out: &mut O) -> Ending
    ensures { judging.RefuseGives line.now (O.moment out.old) (O.moment out.new) result }
{
    match put_all(out, line) {
        Ok(()) => Ending::Error,
        Err(error) => of_writing(error),
    }
}

fn ending_of(count: &Count) -> Ending
    ensures { result ≡ judging.ending_of count.now }
{
    if count.refused {
        Ending::Refused
    } else if count.number == 0 {
        Ending::Nothing
    } else {
        Ending::Done
    }
}

/// Judges the derivations among the items that a splitter has still to give, and writes their
/// lines.
pub(crate) fn judge_all<O: Sink>(
    alloc: Global,
    splitter: &mut Splitter,
    session: &Session,
    asked: &Asked,
    out: &mut O,
) -> Ending
    requires finished { splitter.old.last ≡ true }
    requires formulas { judging.AreAllOf session.now asked.now }
    ensures { judging.TranscriptGives splitter.old session.now.bank asked.now (O.moment out.old) (O.moment out.new) result }
{
    let mut count = Count {
        number: 0,
        refused: false,
    };
    loop {
        match splitter.next_item() {
            Item::Top { line } => {
                if let Err(ending) = judge_item(
                    alloc,
                    session,
                    asked,
                    splitter.item(),
                    line,
                    &mut count,
                    out,
                ) {
                    return ending;
                }
            }
            Item::End => return ending_of(&count),
            Item::Bad(fault) => {
                let Ok(line) = fault_line(alloc, fault) else {
                    return Ending::Memory;
                };
                return refuse(line.as_slice(), out);
            }
            Item::More => unreachable!(),
        }
    }
}
