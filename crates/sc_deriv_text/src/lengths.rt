//! How many bytes the text of a derivation has.

ghost use Rattle.std.specs.Prelude.{◌≡◌, ◌≤◌, ◌<◌, ◌+◌, ◌-◌, ◌^◌, ◌∷◌, [], length, min, decimal};
ghost use Rattle.std.specs.List.{AllByRecursion};
ghost use Rattle.sc_deriv_text.specs.Sexpr.{bytes_of};
ghost use Rattle.sc_deriv_text.specs.Spelling as spec;
ghost use Rattle.sc_deriv_text.specs.Text.{node_lines, text_of};

use crate::head::{Head, NameHead, OneHead, ThreeHead, TwoHead, head_word, name_word};
use itoa::Buffer;
use sc_deriv::{Closing, Derivation, Node, Step};
use sc_facts::FactName;
use sc_rules::PlainStep;
use sc_terms::Cube;

/// How many bytes the digits of a number are.
fn digits(n: u32) -> u128
    ensures count { result ≡ length (decimal n) }
    ensures small { result ≤ 40 }
    ensures fits { n < 2 ^ 32 }
{
    let mut buffer = Buffer::new();
    buffer.format(n).len() as u128
}

fn one_length(word: &str, a: u32) -> u128
    requires { length word.now ≤ 8 }
    ensures count { result ≡ length (bytes_of (spec.form word.now (spec.numeral_expr a ∷ []))) }
    ensures small { result ≤ 200 }
    ensures fits { a < 2 ^ 32 }
{
    3 + word.len() as u128 + digits(a)
}

fn two_length(word: &str, a: u32, b: u32) -> u128
    requires { length word.now ≤ 8 }
    ensures count { result ≡ length (bytes_of (spec.form word.now (spec.numeral_expr a ∷ spec.numeral_expr b ∷ []))) }
    ensures small { result ≤ 200 }
    ensures fits { (a < 2 ^ 32) × (b < 2 ^ 32) }
{
    4 + word.len() as u128 + digits(a) + digits(b)
}

fn three_length(word: &str, a: u32, b: u32, c: u32) -> u128
    requires { length word.now ≤ 8 }
    ensures count { result ≡ length (bytes_of (spec.form word.now (spec.numeral_expr a ∷ spec.numeral_expr b ∷ spec.numeral_expr c ∷ []))) }
    ensures small { result ≤ 200 }
    ensures fits { (a < 2 ^ 32) × (b < 2 ^ 32) × (c < 2 ^ 32) }
{
    5 + word.len() as u128 + digits(a) + digits(b) + digits(c)
}

fn empty_length(cube: &Cube) -> u128
    ensures count { result ≡ length (bytes_of (spec.empty_expr cube.now)) }
    ensures small { result ≤ 2 ^ 64 + 200 }
    ensures fits { cube.now.component < 2 ^ 32 }
{
    9 + digits(cube.component) + cube.signs.len() as u128
}

fn name_length(name: &FactName) -> u128
    ensures count { result ≡ length (bytes_of (spec.name_expr name.now)) }
    ensures small { result ≤ 2 ^ 64 + 200 }
    ensures fits { spec.NameFits name.now }
{
    match name {
        FactName::Sign(f) => one_length(name_word(NameHead::Sign), *f),
        FactName::Member(e, s) => two_length(name_word(NameHead::In), *e, *s),
        FactName::Eq(e, f) => two_length(name_word(NameHead::Eq), *e, *f),
        FactName::EqSet(s, t) => two_length(name_word(NameHead::Seq), *s, *t),
        FactName::Empty(cube) => empty_length(cube),
    }
}

fn named_length(word: &str, name: &FactName) -> u128
    requires { length word.now ≤ 8 }
    ensures count { result ≡ length (bytes_of (spec.form word.now (spec.name_expr name.now ∷ []))) }
    ensures small { result ≤ 2 ^ 64 + 300 }
    ensures fits { spec.NameFits name.now }
{
    3 + word.len() as u128 + name_length(name)
}

fn step_length(step: &PlainStep) -> u128
    ensures count { result ≡ length (bytes_of (spec.part_expr (spec.step_part step.now))) }
    ensures small { result ≤ 2 ^ 64 + 300 }
    ensures fits { spec.PartFits (spec.step_part step.now) }
{
    match step {
        PlainStep::Atom(f) => one_length(head_word(Head::One(OneHead::Atom)), *f),
        PlainStep::All(f, p) => two_length(head_word(Head::Two(TwoHead::All)), *f, *p),
        PlainStep::Unit(f, p) => two_length(head_word(Head::Two(TwoHead::Unit)), *f, *p),
        PlainStep::Cut(name) => named_length(head_word(Head::Cut), name),
        PlainStep::Op(e, s, p) => {
            three_length(head_word(Head::Three(ThreeHead::Op)), *e, *s, *p)
        }
        PlainStep::Single(e, s) => two_length(head_word(Head::Two(TwoHead::Single)), *e, *s),
        PlainStep::Unsingle(e, s) => two_length(head_word(Head::Two(TwoHead::Unsingle)), *e, *s),
        PlainStep::Carry(e, f, s) => {
            three_length(head_word(Head::Three(ThreeHead::Carry)), *e, *f, *s)
        }
        PlainStep::Apart(e, f, s) => {
            three_length(head_word(Head::Three(ThreeHead::Apart)), *e, *f, *s)
        }
        PlainStep::Move(e, s, t) => {
            three_length(head_word(Head::Three(ThreeHead::Move)), *e, *s, *t)
        }
        PlainStep::SetApart(e, s, t) => {
            three_length(head_word(Head::Three(ThreeHead::SetApart)), *e, *s, *t)
        }
        PlainStep::EqRefl(e) => one_length(head_word(Head::One(OneHead::EqRefl)), *e),
        PlainStep::EqStep(e, f, g) => {
            three_length(head_word(Head::Three(ThreeHead::EqStep)), *e, *f, *g)
        }
        PlainStep::SeqRefl(s) => one_length(head_word(Head::One(OneHead::SeqRefl)), *s),
        PlainStep::SeqStep(s, t, u) => {
            three_length(head_word(Head::Three(ThreeHead::SeqStep)), *s, *t, *u)
        }
        PlainStep::Differ(s, t) => two_length(head_word(Head::Two(TwoHead::Differ)), *s, *t),
    }
}

fn node_length(node: &Node) -> u128
    ensures count { result ≡ length (bytes_of (spec.node_expr node.now)) }
    ensures small { result ≤ 2 ^ 64 + 300 }
    ensures fits { spec.NodeFits node.now }
{
    match node {
        Node::Step(Step::Plain(step)) => step_length(step),
        Node::Closing(Closing::Clash(name)) => named_length(head_word(Head::Clash), name),
    }
}

fn lines_length(nodes: &[Node]) -> u128
    ensures count { result ≡ min (2 ^ 128 - 1) (length (node_lines nodes.now)) }
    ensures fits { AllByRecursion spec.NodeFits nodes.now }
{
    let mut total: u128 = 0;
    for node in nodes {
        total = total.saturating_add(node_length(node) + 1);
    }
    total
}

/// How many bytes [`write`](crate::write) prints; no more than 2^128 - 1 are counted.
#[tactic(auto, unfolding(crate::specs::Text::text_of))]
pub fn length(derivation: &Derivation) -> u128
    ensures count { result ≡ min (2 ^ 128 - 1) (length (text_of derivation.now)) }
    // Its numbers are of 32 bits.
    ensures fits { spec.Fits derivation.now }
{
    lines_length(derivation.nodes.as_slice()).saturating_add(22)
}
