//! Writing a derivation, each node on a line of its own.

ghost use Rattle.std.specs.Prelude.{◌≡◌, ◌<◌, ◌^◌, ◌∷◌, [], ◌++◌, if◌then◌else◌, IfOk, IsTrue};
ghost use Rattle.std.specs.List.{flat_map, AllByRecursion};
ghost use Rattle.sc_io.specs.Writing.{PutGives};
ghost use Rattle.sc_deriv_text.specs.Held.{HoldGives};
ghost use Rattle.sc_deriv_text.specs.Sexpr.{bytes_of};
ghost use Rattle.sc_deriv_text.specs.Spelling as spec;
ghost use Rattle.sc_deriv_text.specs.Text.{before_cube, before_name, node_line, node_lines, text_of};

use crate::head::{Head, NameHead, OneHead, ThreeHead, TwoHead, head_word, name_word};
use crate::held::Held;
use itoa::Buffer;
use sc_deriv::{Closing, Derivation, Node, Step};
use sc_facts::FactName;
use sc_io::{PutError, Sink, put_all};
use sc_rules::PlainStep;
use sc_terms::{Cube, Sign};

/// Writes the pieces one after the other.
fn put_each<O: Sink>(out: &mut O, pieces: &[&[u8]]) -> Result<(), PutError>
    ensures { PutGives (O.moment out.old) (O.moment out.new) (flat_map (λ p. p.now) pieces.now) result }
{
    for piece in pieces.iter() {
        if let Err(error) = put_all(out, piece) {
            return Err(error);
        }
    }
    Ok(())
}

fn put_one<O: Sink>(out: &mut O, word: &str, a: u32) -> Result<(), PutError>
    ensures put { PutGives (O.moment out.old) (O.moment out.new) (bytes_of (spec.form word.now (spec.numeral_expr a ∷ []))) result }
    ensures fits { a < 2 ^ 32 }
{
    let mut first = Buffer::new();
    let a = first.format(a).as_bytes();
    let pieces: [&[u8]; 5] = [b"(", word.as_bytes(), b" ", a, b")"];
    put_each(out, &pieces)
}

fn put_two<O: Sink>(out: &mut O, word: &str, a: u32, b: u32) -> Result<(), PutError>
    ensures put { PutGives (O.moment out.old) (O.moment out.new) (bytes_of (spec.form word.now (spec.numeral_expr a ∷ spec.numeral_expr b ∷ []))) result }
    ensures fits { (a < 2 ^ 32) × (b < 2 ^ 32) }
{
    let mut first = Buffer::new();
    let mut second = Buffer::new();
    let a = first.format(a).as_bytes();
    let b = second.format(b).as_bytes();
    let pieces: [&[u8]; 7] = [b"(", word.as_bytes(), b" ", a, b" ", b, b")"];
    put_each(out, &pieces)
}

fn put_three<O: Sink>(out: &mut O, word: &str, a: u32, b: u32, c: u32) -> Result<(), PutError>
    ensures put { PutGives (O.moment out.old) (O.moment out.new) (bytes_of (spec.form word.now (spec.numeral_expr a ∷ spec.numeral_expr b ∷ spec.numeral_expr c ∷ []))) result }
    ensures fits { (a < 2 ^ 32) × (b < 2 ^ 32) × (c < 2 ^ 32) }
{
    let mut first = Buffer::new();
    let mut second = Buffer::new();
    let mut third = Buffer::new();
    let a = first.format(a).as_bytes();
    let b = second.format(b).as_bytes();
    let c = third.format(c).as_bytes();
    let pieces: [&[u8]; 9] = [b"(", word.as_bytes(), b" ", a, b" ", b, b" ", c, b")"];
    put_each(out, &pieces)
}

fn sign_text(sign: Sign) -> &'static [u8]
    ensures { result.now ≡ spec.sign_byte sign ∷ [] }
{
    match sign {
        Sign::Plus => b"+",
        Sign::Minus => b"-",
    }
}

fn put_signs<O: Sink>(out: &mut O, signs: &[Sign]) -> Result<(), PutError>
    ensures { PutGives (O.moment out.old) (O.moment out.new) (spec.cube_bytes signs.now) result }
{
    for sign in signs {
        if let Err(error) = put_all(out, sign_text(*sign)) {
            return Err(error);
        }
    }
    Ok(())
}

/// Writes what stands before a region's word.
fn put_component<O: Sink>(out: &mut O, component: u32) -> Result<(), PutError>
    ensures put { PutGives (O.moment out.old) (O.moment out.new) (before_cube component) result }
    ensures fits { component < 2 ^ 32 }
{
    let mut first = Buffer::new();
    let number = first.format(component).as_bytes();
    let pieces: [&[u8]; 3] = [b"(empty ", number, b" "];
    put_each(out, &pieces)
}

fn put_empty<O: Sink>(out: &mut O, cube: &Cube) -> Result<(), PutError>
    ensures put { PutGives (O.moment out.old) (O.moment out.new) (bytes_of (spec.empty_expr cube.now)) result }
    ensures fits { cube.now.component < 2 ^ 32 }
{
    if let Err(error) = put_component(out, cube.component) {
        return Err(error);
    }
    if let Err(error) = put_signs(out, cube.signs.as_slice()) {
        return Err(error);
    }
    put_all(out, b")")
}

fn put_name<O: Sink>(out: &mut O, name: &FactName) -> Result<(), PutError>
    ensures put { PutGives (O.moment out.old) (O.moment out.new) (bytes_of (spec.name_expr name.now)) result }
    ensures fits { spec.NameFits name.now }
{
    match name {
        FactName::Sign(f) => put_one(out, name_word(NameHead::Sign), *f),
        FactName::Member(e, s) => put_two(out, name_word(NameHead::In), *e, *s),
        FactName::Eq(e, f) => put_two(out, name_word(NameHead::Eq), *e, *f),
        FactName::EqSet(s, t) => put_two(out, name_word(NameHead::Seq), *s, *t),
        FactName::Empty(cube) => put_empty(out, cube),
    }
}

/// Writes an opening parenthesis, a word and a space.
fn put_word<O: Sink>(out: &mut O, word: &str) -> Result<(), PutError>
    ensures { PutGives (O.moment out.old) (O.moment out.new) (before_name word.now) result }
{
    let pieces: [&[u8]; 3] = [b"(", word.as_bytes(), b" "];
    put_each(out, &pieces)
}

fn put_named<O: Sink>(out: &mut O, word: &str, name: &FactName) -> Result<(), PutError>
    ensures put { PutGives (O.moment out.old) (O.moment out.new) (bytes_of (spec.form word.now (spec.name_expr name.now ∷ []))) result }
    ensures fits { IfOk result (λ _. spec.NameFits name.now) }
{
    if let Err(error) = put_word(out, word) {
        return Err(error);
    }
    if let Err(error) = put_name(out, name) {
        return Err(error);
    }
    put_all(out, b")")
}

fn put_step<O: Sink>(out: &mut O, step: &PlainStep) -> Result<(), PutError>
    ensures put { PutGives (O.moment out.old) (O.moment out.new) (bytes_of (spec.part_expr (spec.step_part step.now))) result }
    ensures fits { IfOk result (λ _. spec.PartFits (spec.step_part step.now)) }
{
    match step {
        PlainStep::Atom(f) => put_one(out, head_word(Head::One(OneHead::Atom)), *f),
        PlainStep::All(f, p) => put_two(out, head_word(Head::Two(TwoHead::All)), *f, *p),
        PlainStep::Unit(f, p) => put_two(out, head_word(Head::Two(TwoHead::Unit)), *f, *p),
        PlainStep::Cut(name) => put_named(out, head_word(Head::Cut), name),
        PlainStep::Op(e, s, p) => {
            put_three(out, head_word(Head::Three(ThreeHead::Op)), *e, *s, *p)
        }
        PlainStep::Single(e, s) => put_two(out, head_word(Head::Two(TwoHead::Single)), *e, *s),
        PlainStep::Unsingle(e, s) => put_two(out, head_word(Head::Two(TwoHead::Unsingle)), *e, *s),
        PlainStep::Carry(e, f, s) => {
            put_three(out, head_word(Head::Three(ThreeHead::Carry)), *e, *f, *s)
        }
        PlainStep::Apart(e, f, s) => {
            put_three(out, head_word(Head::Three(ThreeHead::Apart)), *e, *f, *s)
        }
        PlainStep::Move(e, s, t) => {
            put_three(out, head_word(Head::Three(ThreeHead::Move)), *e, *s, *t)
        }
        PlainStep::SetApart(e, s, t) => {
            put_three(out, head_word(Head::Three(ThreeHead::SetApart)), *e, *s, *t)
        }
        PlainStep::EqRefl(e) => put_one(out, head_word(Head::One(OneHead::EqRefl)), *e),
        PlainStep::EqStep(e, f, g) => {
            put_three(out, head_word(Head::Three(ThreeHead::EqStep)), *e, *f, *g)
        }
        PlainStep::SeqRefl(s) => put_one(out, head_word(Head::One(OneHead::SeqRefl)), *s),
        PlainStep::SeqStep(s, t, u) => {
            put_three(out, head_word(Head::Three(ThreeHead::SeqStep)), *s, *t, *u)
        }
        PlainStep::Differ(s, t) => put_two(out, head_word(Head::Two(TwoHead::Differ)), *s, *t),
    }
}

fn put_node<O: Sink>(out: &mut O, node: &Node) -> Result<(), PutError>
    ensures put { PutGives (O.moment out.old) (O.moment out.new) (bytes_of (spec.node_expr node.now)) result }
    ensures fits { IfOk result (λ _. spec.NodeFits node.now) }
{
    match node {
        Node::Step(Step::Plain(step)) => put_step(out, step),
        Node::Closing(Closing::Clash(name)) => put_named(out, head_word(Head::Clash), name),
    }
}

fn put_line<O: Sink>(out: &mut O, node: &Node) -> Result<(), PutError>
    ensures put { PutGives (O.moment out.old) (O.moment out.new) (node_line node.now) result }
    ensures fits { IfOk result (λ _. spec.NodeFits node.now) }
{
    if let Err(error) = put_node(out, node) {
        return Err(error);
    }
    put_all(out, b"\n")
}

/// Holds a node's line behind what is held, or changes nothing where it does not fit.
fn hold_line(held: &mut Held, node: &Node) -> bool
    ensures held { held.new.held ≡ (if result then held.old.held ++ node_line node.now else held.old.held) }
    ensures fits { IsTrue result → spec.NodeFits node.now }
{
    let count = held.bytes().len();
    if let Err(_) = put_line(held, node) {
        held.truncate(count);
        return false;
    }
    true
}

/// Holds a node's line behind what is held, and writes what was held before it where they do not fit together.
fn put_or_hold<O: Sink>(out: &mut O, held: &mut Held, node: &Node) -> Result<(), PutError>
    ensures put { HoldGives (O.moment out.old) (O.moment out.new) (held.old.held ++ node_line node.now) held.new.held result }
    ensures fits { IfOk result (λ _. spec.NodeFits node.now) }
{
    if hold_line(held, node) {
        return Ok(());
    }
    if let Err(error) = put_all(out, held.bytes()) {
        return Err(error);
    }
    held.truncate(0);
    if hold_line(held, node) {
        return Ok(());
    }
    put_line(out, node)
}

/// Writes the lines of the nodes, many at a time.
fn put_lines<O: Sink>(out: &mut O, nodes: &[Node]) -> Result<(), PutError>
    ensures put { PutGives (O.moment out.old) (O.moment out.new) (node_lines nodes.now) result }
    ensures fits { IfOk result (λ _. AllByRecursion spec.NodeFits nodes.now) }
{
    let mut held = Held::new();
    for node in nodes {
        if let Err(error) = put_or_hold(out, &mut held, node) {
            return Err(error);
        }
    }
    put_all(out, held.bytes())
}

/// Writes the text of a derivation, version 1: the lines `(derivation` and `(tree`, each node on a line of its own with single spaces, as `(unit 2 1)` or `(clash (sign 2))`, and two lines `)`. Each line ends with a line feed. Lemmas are not written; a derivation that can be written down has none.
///
/// Lines go to the sink many at a time, out of a buffer of 1,024 bytes on the stack; no memory is taken. With an error a front of the text was written, and not all of it: [`WriteError::Sink`](PutError::Sink) where the last write failed, which comes only where the sink's count of faults rose in this call or stands at its end, and [`WriteError::Memory`](PutError::Memory) where the sink wanted memory.
pub fn write<O: Sink>(derivation: &Derivation, out: &mut O) -> Result<(), PutError>
    // The whole text, or a front of it with an error.
    ensures put { PutGives (O.moment out.old) (O.moment out.new) (text_of derivation.now) result }
    // Its numbers are of 32 bits.
    ensures fits { IfOk result (λ _. spec.Fits derivation.now) }
{
    if let Err(error) = put_all(out, b"(derivation\n(tree\n") {
        return Err(error);
    }
    if let Err(error) = put_lines(out, derivation.nodes.as_slice()) {
        return Err(error);
    }
    put_all(out, b")\n)\n")
}
