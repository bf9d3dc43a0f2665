//! Facts' names and nodes in a tree of tokens.

ghost use Rattle.std.specs.Prelude.{◌≡◌};
ghost use Rattle.sc_deriv_text.specs.Sexpr.{expr, exprs};
ghost use Rattle.sc_deriv_text.specs.Reading as spec;

use crate::errors::PartError;
use crate::head::{Head, NameHead, OneHead, ThreeHead, TwoHead, head_of, name_of};
use crate::tokens::{cube_word, number, word_of};
use sc_deriv::{Closing, Node, Reason, Step};
use sc_facts::FactName;
use sc_rules::PlainStep;
use sc_sexpr::Tree;
use sc_terms::Cube;
use std::alloc::Global;

/// Whether no argument is left.
#[tactic(auto, using(crate::proofs::Exprs::is_end_exprs))]
pub fn is_end(parts: &[Tree]) -> bool
    ensures { result ≡ spec.is_end (exprs parts.now) }
{
    parts.is_empty()
}

fn next<'t, 'a>(parts: &'t [Tree<'a>]) -> Result<(u32, &'t [Tree<'a>]), Reason>
    ensures { spec.seen (λ x. (x.0, exprs x.1.now)) result ≡ spec.next spec.number (exprs parts.now) }
{
    let [first, rest @ ..] = parts else {
        return Err(Reason::P3);
    };
    Ok((number(first)?, rest))
}

fn one(parts: &[Tree]) -> Result<u32, Reason>
    ensures { result ≡ spec.one spec.number (exprs parts.now) }
{
    let (a, rest) = next(parts)?;
    if is_end(rest) { Ok(a) } else { Err(Reason::P3) }
}

fn two(parts: &[Tree]) -> Result<(u32, u32), Reason>
    ensures { result ≡ spec.two (exprs parts.now) }
{
    let (a, rest) = next(parts)?;
    let (b, rest) = next(rest)?;
    if is_end(rest) {
        Ok((a, b))
    } else {
        Err(Reason::P3)
    }
}

fn three(parts: &[Tree]) -> Result<(u32, u32, u32), Reason>
    ensures { result ≡ spec.three (exprs parts.now) }
{
    let (a, rest) = next(parts)?;
    let (b, rest) = next(rest)?;
    let (c, rest) = next(rest)?;
    if is_end(rest) {
        Ok((a, b, c))
    } else {
        Err(Reason::P3)
    }
}

/// Two numbers of which the lower comes first.
fn pair(parts: &[Tree]) -> Result<(u32, u32), Reason>
    ensures { result ≡ spec.pair (exprs parts.now) }
{
    let (low, high) = two(parts)?;
    if low <= high {
        Ok((low, high))
    } else {
        Err(Reason::P3)
    }
}

fn last_word(alloc: Global, component: u32, parts: &[Tree]) -> Result<Cube, PartError>
    ensures { spec.PartGives (λ c. c) result (spec.last_word component (exprs parts.now)) }
{
    let [first, rest @ ..] = parts else {
        return Err(PartError::Refused(Reason::P3));
    };
    let signs = cube_word(alloc, first)?;
    if is_end(rest) {
        Ok(Cube { component, signs })
    } else {
        Err(PartError::Refused(Reason::P3))
    }
}

fn cube(alloc: Global, parts: &[Tree]) -> Result<Cube, PartError>
    ensures { spec.PartGives (λ c. c) result (spec.cube (exprs parts.now)) }
{
    let (component, rest) = next(parts)?;
    last_word(alloc, component, rest)
}

fn name_with(alloc: Global, head: NameHead, parts: &[Tree]) -> Result<FactName, PartError>
    ensures { spec.PartGives (λ n. n) result (spec.name_with (Some head) (exprs parts.now)) }
{
    match head {
        NameHead::Sign => Ok(FactName::Sign(one(parts)?)),
        NameHead::In => {
            let (e, s) = two(parts)?;
            Ok(FactName::Member(e, s))
        }
        NameHead::Eq => {
            let (e, f) = pair(parts)?;
            Ok(FactName::Eq(e, f))
        }
        NameHead::Seq => {
            let (s, t) = pair(parts)?;
            Ok(FactName::EqSet(s, t))
        }
        NameHead::Empty => Ok(FactName::Empty(cube(alloc, parts)?)),
    }
}

fn name_head(tree: &Tree) -> Option<NameHead>
    ensures { result ≡ spec.name_head (expr tree.now) }
{
    match word_of(tree) {
        Some(word) => name_of(word),
        None => None,
    }
}

fn name_parts(alloc: Global, parts: &[Tree]) -> Result<FactName, PartError>
    ensures { spec.PartGives (λ n. n) result (spec.name (exprs parts.now)) }
{
    let [first, rest @ ..] = parts else {
        return Err(PartError::Refused(Reason::P3));
    };
    match name_head(first) {
        Some(head) => name_with(alloc, head, rest),
        None => Err(PartError::Refused(Reason::P3)),
    }
}

fn name(alloc: Global, tree: &Tree) -> Result<FactName, PartError>
    ensures { spec.PartGives (λ n. n) result (spec.name (expr tree.now)) }
{
    match tree {
        Tree::Leaf(_) => Err(PartError::Refused(Reason::P3)),
        Tree::List(items) => name_parts(alloc, &items.trees),
    }
}

fn one_name(alloc: Global, parts: &[Tree]) -> Result<FactName, PartError>
    ensures { spec.PartGives (λ n. n) result (spec.one spec.name (exprs parts.now)) }
{
    let [first, rest @ ..] = parts else {
        return Err(PartError::Refused(Reason::P3));
    };
    let found = name(alloc, first)?;
    if is_end(rest) {
        Ok(found)
    } else {
        Err(PartError::Refused(Reason::P3))
    }
}

fn make_one(head: OneHead, a: u32) -> PlainStep
    ensures { result ≡ spec.make_one head a }
{
    match head {
        OneHead::Atom => PlainStep::Atom(a),
        OneHead::EqRefl => PlainStep::EqRefl(a),
        OneHead::SeqRefl => PlainStep::SeqRefl(a),
    }
}

fn make_two(head: TwoHead, a: u32, b: u32) -> PlainStep
    ensures { result ≡ spec.make_two head a b }
{
    match head {
        TwoHead::All => PlainStep::All(a, b),
        TwoHead::Unit => PlainStep::Unit(a, b),
        TwoHead::Single => PlainStep::Single(a, b),
        TwoHead::Unsingle => PlainStep::Unsingle(a, b),
        TwoHead::Differ => PlainStep::Differ(a, b),
    }
}

fn make_three(head: ThreeHead, a: u32, b: u32, c: u32) -> PlainStep
    ensures { result ≡ spec.make_three head a b c }
{
    match head {
        ThreeHead::Op => PlainStep::Op(a, b, c),
        ThreeHead::Carry => PlainStep::Carry(a, b, c),
        ThreeHead::Apart => PlainStep::Apart(a, b, c),
        ThreeHead::Move => PlainStep::Move(a, b, c),
        ThreeHead::SetApart => PlainStep::SetApart(a, b, c),
        ThreeHead::EqStep => PlainStep::EqStep(a, b, c),
        ThreeHead::SeqStep => PlainStep::SeqStep(a, b, c),
    }
}

fn step(step: PlainStep) -> Node
    ensures { result ≡ spec.step step }
{
    Node::Step(Step::Plain(step))
}

fn node_with(alloc: Global, head: Head, parts: &[Tree]) -> Result<Node, PartError>
    ensures { spec.PartGives (λ n. n) result (spec.node_with (Some head) (exprs parts.now)) }
{
    match head {
        Head::One(head) => Ok(step(make_one(head, one(parts)?))),
        Head::Two(head) => {
            let (a, b) = two(parts)?;
            Ok(step(make_two(head, a, b)))
        }
        Head::Three(head) => {
            let (a, b, c) = three(parts)?;
            Ok(step(make_three(head, a, b, c)))
        }
        Head::Cut => Ok(step(PlainStep::Cut(one_name(alloc, parts)?))),
        Head::Clash => Ok(Node::Closing(Closing::Clash(one_name(alloc, parts)?))),
    }
}

fn node_head(tree: &Tree) -> Option<Head>
    ensures { result ≡ spec.node_head (expr tree.now) }
{
    match word_of(tree) {
        Some(word) => head_of(word),
        None => None,
    }
}

fn node_parts(alloc: Global, parts: &[Tree]) -> Result<Node, PartError>
    ensures { spec.PartGives (λ n. n) result (spec.node (exprs parts.now)) }
{
    let [first, rest @ ..] = parts else {
        return Err(PartError::Refused(Reason::P2));
    };
    match node_head(first) {
        Some(head) => node_with(alloc, head, rest),
        None => Err(PartError::Refused(Reason::P2)),
    }
}

/// The node that a tree spells.
pub fn node(alloc: Global, tree: &Tree) -> Result<Node, PartError>
    ensures { spec.PartGives (λ n. n) result (spec.node (expr tree.now)) }
{
    match tree {
        Tree::Leaf(_) => Err(PartError::Refused(Reason::P2)),
        Tree::List(items) => node_parts(alloc, &items.trees),
    }
}
