//! Reading a tree of tokens as a derivation.

ghost use Rattle.std.specs.Prelude.{◌≡◌, ◌≤◌, codes, IfOk};
ghost use Rattle.sc_sexpr.specs.Shapes.{shape};
ghost use Rattle.sc_deriv.specs.Spelling.{branch_count, IsSpelt};
ghost use Rattle.sc_deriv_text.specs.Sexpr.{expr, exprs};
ghost use Rattle.sc_deriv_text.specs.Reading as spec;

use crate::errors::{PartError, TextError};
use crate::parts::{is_end, node};
use crate::tokens::word_of;
use sc_deriv::{Closing, Derivation, Lemmas, Node, Nodes, Reason, Step};
use sc_rules::PlainStep;
use sc_sexpr::Tree;
use std::alloc::Global;

/// How many branches go on after a node.
fn branch_count(node: &Node) -> u64
    ensures count { result ≡ branch_count node.now }
    ensures most { result ≤ 2 }
{
    match node {
        Node::Step(Step::Plain(PlainStep::Cut(_))) => 2,
        Node::Step(Step::Plain(PlainStep::Differ(_, _))) => 2,
        Node::Step(Step::Plain(_)) => 1,
        Node::Closing(Closing::Clash(_)) => 0,
    }
}

/// The node with this number.
fn numbered(alloc: Global, number: u64, tree: &Tree) -> Result<Node, TextError>
    ensures { spec.Gives (λ n. n) result (spec.refused number (spec.node (expr tree.now))) }
{
    match node(alloc, tree) {
        Ok(node) => Ok(node),
        Err(PartError::Refused(reason)) => Err(TextError::Refused {
            node: number,
            reason,
        }),
        Err(PartError::Memory) => Err(TextError::Memory),
    }
}

fn tree_nodes(alloc: Global, trees: &[Tree]) -> Result<Vec<Node>, TextError>
    ensures { spec.Gives (λ v. v.items) result (spec.tree_nodes 1 1 (exprs trees.now)) }
{
    let mut nodes = Vec::new(alloc);
    let mut due: u64 = 1;
    for tree in trees {
        let number = nodes.len() as u64 + 1;
        if due == 0 {
            return Err(TextError::Refused {
                node: number,
                reason: Reason::P6,
            });
        }
        let node = match numbered(alloc, number, tree) {
            Ok(node) => node,
            Err(error) => return Err(error),
        };
        due = due - 1 + branch_count(&node);
        if nodes.push(node).is_err() {
            return Err(TextError::Memory);
        }
    }
    if due > 0 {
        return Err(TextError::Refused {
            node: nodes.len() as u64 + 1,
            reason: Reason::P5,
        });
    }
    Ok(nodes)
}

/// That no derivation is spelt, after so many nodes.
fn malformed(nodes: u64) -> TextError
    ensures { result ≡ TextError.Refused nodes Reason.P1 }
{
    TextError::Refused {
        node: nodes,
        reason: Reason::P1,
    }
}

fn is_word(tree: &Tree, word: &[u8]) -> bool
    ensures { result ≡ spec.is_word word.now (expr tree.now) }
{
    match word_of(tree) {
        Some(text) => word == text,
        None => false,
    }
}

/// The parts behind the word with which a list begins.
fn tail_of<'t, 'a>(tree: &'t Tree<'a>, word: &[u8]) -> Result<&'t [Tree<'a>], TextError>
    ensures { spec.Gives (λ t. exprs t.now) result (spec.tail_of word.now (expr tree.now)) }
{
    let Tree::List(items) = tree else {
        return Err(malformed(0));
    };
    match items.trees.as_slice() {
        [first, rest @ ..] => {
            if is_word(first, word) {
                Ok(rest)
            } else {
                Err(malformed(0))
            }
        }
        [] => Err(malformed(0)),
    }
}

fn whole(alloc: Global, parts: &[Tree]) -> Result<Vec<Node>, TextError>
    ensures { spec.Gives (λ v. v.items) result (spec.whole (exprs parts.now)) }
{
    let [first, rest @ ..] = parts else {
        return Err(malformed(0));
    };
    let trees = tail_of(first, b"tree")?;
    let nodes = tree_nodes(alloc, trees)?;
    if is_end(rest) {
        Ok(nodes)
    } else {
        Err(malformed(nodes.len() as u64))
    }
}

fn nodes_in(alloc: Global, tree: &Tree) -> Result<Vec<Node>, TextError>
    ensures { spec.Gives (λ v. v.items) result (spec.nodes_in (expr tree.now)) }
{
    let parts = tail_of(tree, b"derivation")?;
    whole(alloc, parts)
}

#[tactic(auto, unfolding(crate::specs::Reading::derivation_in))]
fn read_exactly(alloc: Global, tree: &Tree) -> Result<Derivation, TextError>
    ensures { spec.IsReading result (spec.reading (shape tree.now)) }
{
    let nodes = nodes_in(alloc, tree)?;
    Ok(Derivation {
        lemmas: Lemmas::new(alloc),
        nodes: Nodes::from_vec(nodes),
    })
}

/// The derivation that a tree of tokens spells: the expression `(derivation (tree NODE NODE ..))` whose nodes are one whole tree in preorder, each a list of its word and its arguments, as [`write`](crate::write) prints it. Where it spells none it is refused with the first of these in the order of the text, at the number of the node, which counts from 1:
///
/// - `P1`: the list or the tree has another frame; at the number of nodes read before. No lemmas are read.
/// - `P2`: the node is no list, or its first part no word of a step or a closing.
/// - `P3`: its arguments are of another number or kind, an unordered pair has the greater number first, or a region's word has no plus.
/// - `P4`: a number is 2^32 or more.
/// - `P5`: the tree ends where a node is due; at the number that it would have.
/// - `P6`: a node stands after the whole tree.
///
/// Quoted symbols never count as words. The only other error is want of memory. It takes time in proportion to the text, and goes no deeper into the stack for long derivations.
pub fn read(alloc: Global, tree: &Tree) -> Result<Derivation, TextError>
    // It gives exactly what reading the tree's shape gives.
    ensures exact { spec.IsReading result (spec.reading (shape tree.now)) }
    // What is read can be written down.
    ensures spelt { IfOk result (λ d. IsSpelt d) }
{
    read_exactly(alloc, tree)
}
