//! Which derivations can be written down.

ghost use Rattle.std.specs.Prelude.{◌≡◌, ◌↔◌, ◌≤◌, ◌&&◌, length, IsTrue};
ghost use Rattle.sc_terms.specs.Meaning.{is_plus};
ghost use Rattle.sc_deriv.specs.Acceptance.{is_ordered};
ghost use Rattle.sc_deriv.specs.Spelling as spec;
ghost use Rattle.sc_deriv.specs.Spelling.{IsSpelt};

use crate::derivation::{Closing, Derivation, Node, Step};
use sc_facts::FactName;
use sc_rules::PlainStep;
use sc_terms::Sign;

/// Whether of an unordered pair the lower number comes first.
pub fn is_ordered(name: &FactName) -> bool
    ensures { result ≡ is_ordered name.now }
{
    match name {
        FactName::Eq(low, high) | FactName::EqSet(low, high) => low <= high,
        _ => true,
    }
}

fn is_plus(sign: &Sign) -> bool
    ensures { result ≡ is_plus sign.now }
{
    matches!(sign, Sign::Plus)
}

fn has_plus(signs: &[Sign]) -> bool
    ensures { result ≡ spec.has_plus signs.now }
{
    signs.iter().any(|sign| is_plus(sign))
}

/// Whether a region's word has a plus.
fn name_has_plus(name: &FactName) -> bool
    ensures { result ≡ spec.name_has_plus name.now }
{
    match name {
        FactName::Empty(cube) => has_plus(cube.signs.as_slice()),
        _ => true,
    }
}

/// Whether the name is a fact's.
fn is_name(name: &FactName) -> bool
    ensures { result ≡ spec.is_name name.now }
{
    is_ordered(name) && name_has_plus(name)
}

/// Whether the names in the node are facts' names.
fn is_node(node: &Node) -> bool
    ensures { result ≡ spec.is_node node.now }
{
    match node {
        Node::Step(Step::Plain(PlainStep::Cut(name))) | Node::Closing(Closing::Clash(name)) => {
            is_name(name)
        }
        Node::Step(Step::Plain(_)) => true,
    }
}

fn are_nodes(nodes: &[Node]) -> bool
    ensures { result ≡ spec.are_nodes nodes.now }
{
    nodes.iter().all(|node| is_node(node))
}

/// How many branches go on after a node.
fn branch_count(node: &Node) -> usize
    ensures count { result ≡ spec.branch_count node.now }
    ensures most { result ≤ 2 }
{
    match node {
        Node::Step(Step::Plain(PlainStep::Cut(_) | PlainStep::Differ(_, _))) => 2,
        Node::Step(Step::Plain(_)) => 1,
        Node::Closing(_) => 0,
    }
}

/// Whether the nodes are one whole tree.
fn is_tree(nodes: &[Node]) -> bool
    ensures { result ≡ spec.closes 1 nodes.now }
{
    let mut open_count = 1usize;
    for node in nodes {
        if open_count == 0 {
            return false;
        }
        open_count = open_count - 1 + branch_count(node);
    }
    open_count == 0
}

/// Whether the nodes are one whole tree, and the names in them facts' names.
fn are_tree_nodes(nodes: &[Node]) -> bool
    ensures { result ≡ (spec.closes 1 nodes.now && spec.are_nodes nodes.now) }
{
    is_tree(nodes) && are_nodes(nodes)
}

/// Whether the derivation can be written down: it has no lemmas, since nothing names one; its nodes are exactly one whole tree in preorder; and in each name of a cut or a clash the first number of a pair is at most the second, and a region's word has a plus.
pub fn is_spelt(derivation: &Derivation) -> bool
    ensures { IsTrue result ↔ IsSpelt derivation.now }
{
    derivation.lemmas.is_empty() && are_tree_nodes(derivation.nodes.as_slice())
}
