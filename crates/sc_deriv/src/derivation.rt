//! Derivations, and what a check of them says.

use sc_facts::{FactName, Facts};
use sc_rules::PlainStep;
use sc_terms::Sequence;
use std::alloc::AllocError;

/// A step of a tree: it goes on with each of its branches.
#[derive(Drop)]
pub enum Step {
    /// A step that needs no region tree.
    Plain(PlainStep),
}

/// A step of a path, with the branch that was taken.
#[derive(Drop)]
pub struct Taken {
    /// The step.
    pub step: Step,
    /// The branch's number, 1 or 2.
    pub branch: u32,
}

/// The steps that lead to a path, in their order from the root path on.
pub type Steps = Sequence<Taken>;

/// What ends a branch.
#[derive(Drop)]
pub enum Closing {
    /// The fact with this name stands on the path with both signs.
    Clash(FactName),
}

/// A node of a tree.
#[derive(Drop)]
pub enum Node {
    Step(Step),
    Closing(Closing),
}

/// The nodes of a tree in preorder: after a step with one branch comes the tree on that branch's path, after a step with two branches the whole tree of the first, then that of the second.
pub type Nodes = Sequence<Node>;

/// A tree that begins on the path of the roots followed by the hypotheses, so that these contradict the roots.
#[derive(Drop)]
pub struct Lemma {
    /// The facts that follow the roots' at the start.
    pub hypotheses: Facts,
    /// The tree.
    pub nodes: Nodes,
}

/// Lemmas, numbered from 1.
pub type Lemmas = Sequence<Lemma>;

/// Lemmas, and a tree that begins on the path of the roots.
#[derive(Drop)]
pub struct Derivation {
    /// The lemmas, each proved from those before it. A derivation that can be written down has none, since no closing names one.
    pub lemmas: Lemmas,
    /// The tree.
    pub nodes: Nodes,
}

/// Why a derivation is refused: by its text (`P1` to `P6`), or by what its nodes say (`Q1` to `Q5`).
#[derive(Clone, Copy, Debug, PartialEq, Eq)]
pub enum Reason {
    /// Not a derivation: the frame of the list, of a lemma or of the tree, or a hypothesis, has another shape.
    P1,
    /// Unknown word: a node's head is no step or closing.
    P2,
    /// Malformed node: arguments of another number or kind, or in another order than they are written in.
    P3,
    /// A number out of its range.
    P4,
    /// Nodes missing: a tree or lemma ends where a node is due.
    P5,
    /// Nodes left over: a node stands after the whole tree.
    P6,
    /// A step does not apply on its path.
    Q1,
    /// No clash: the fact does not stand on the path with both signs.
    Q2,
    /// Rows do not refute.
    Q3,
    /// A lemma does not apply.
    Q4,
    /// A number past 128 bits.
    Q5,
}

/// What a check says of a derivation.
#[derive(Clone, Copy, Debug, PartialEq, Eq)]
pub enum Judgement {
    Accepted,
    /// The first node that fails, counted from 1 in preorder, and why.
    Refused { node: u64, reason: Reason },
}

impl PartialEq for Step {
    ghost use Rattle.std.specs.Cmp.{partial_equiv_from_equiv, decided};
    ghost use Rattle.sc_deriv.specs.Same.{same_step, same_step-Decides};

    ghost eq = { same_step };

    ghost laws = { partial_equiv_from_equiv (decided same_step same_step-Decides) };

    fn eq(&self, other: &Step) -> bool {
        let (Step::Plain(a), Step::Plain(b)) = (self, other);
        a == b
    }
}

impl Eq for Step {
    ghost use Rattle.std.specs.Cmp.{decided};
    ghost use Rattle.sc_deriv.specs.Same.{same_step, same_step-Decides};

    ghost laws = { decided same_step same_step-Decides };
}

/// A copy is equal.
impl Clone for Step {
    ghost use Rattle.std.specs.Prelude.{◌≡◌};

    ghost is_clone = { λ a b. b ≡ a };

    fn clone(&self) -> Result<Step, AllocError> {
        let Step::Plain(step) = self;
        Ok(Step::Plain(step.clone()?))
    }
}

impl PartialEq for Taken {
    ghost use Rattle.std.specs.Cmp.{partial_equiv_from_equiv, decided};
    ghost use Rattle.sc_deriv.specs.Same.{same_taken, same_taken-Decides};

    ghost eq = { same_taken };

    ghost laws = { partial_equiv_from_equiv (decided same_taken same_taken-Decides) };

    fn eq(&self, other: &Taken) -> bool {
        self.step == other.step && self.branch == other.branch
    }
}

impl Eq for Taken {
    ghost use Rattle.std.specs.Cmp.{decided};
    ghost use Rattle.sc_deriv.specs.Same.{same_taken, same_taken-Decides};

    ghost laws = { decided same_taken same_taken-Decides };
}

/// A copy is equal.
impl Clone for Taken {
    ghost use Rattle.std.specs.Prelude.{◌≡◌};

    ghost is_clone = { λ a b. b ≡ a };

    fn clone(&self) -> Result<Taken, AllocError> {
        Ok(Taken {
            step: self.step.clone()?,
            branch: self.branch,
        })
    }
}

impl PartialEq for Closing {
    ghost use Rattle.std.specs.Cmp.{partial_equiv_from_equiv, decided};
    ghost use Rattle.sc_deriv.specs.Same.{same_closing, same_closing-Decides};

    ghost eq = { same_closing };

    ghost laws = { partial_equiv_from_equiv (decided same_closing same_closing-Decides) };

    fn eq(&self, other: &Closing) -> bool {
        let (Closing::Clash(a), Closing::Clash(b)) = (self, other);
        a == b
    }
}

impl Eq for Closing {
    ghost use Rattle.std.specs.Cmp.{decided};
    ghost use Rattle.sc_deriv.specs.Same.{same_closing, same_closing-Decides};

    ghost laws = { decided same_closing same_closing-Decides };
}

/// A copy is equal.
impl Clone for Closing {
    ghost use Rattle.std.specs.Prelude.{◌≡◌};

    ghost is_clone = { λ a b. b ≡ a };

    fn clone(&self) -> Result<Closing, AllocError> {
        let Closing::Clash(name) = self;
        Ok(Closing::Clash(name.clone()?))
    }
}

impl PartialEq for Node {
    ghost use Rattle.std.specs.Cmp.{partial_equiv_from_equiv, decided};
    ghost use Rattle.sc_deriv.specs.Same.{same_node, same_node-Decides};

    ghost eq = { same_node };

    ghost laws = { partial_equiv_from_equiv (decided same_node same_node-Decides) };

    fn eq(&self, other: &Node) -> bool {
        match (self, other) {
            (Node::Step(a), Node::Step(b)) => a == b,
            (Node::Closing(a), Node::Closing(b)) => a == b,
            _ => false,
        }
    }
}

impl Eq for Node {
    ghost use Rattle.std.specs.Cmp.{decided};
    ghost use Rattle.sc_deriv.specs.Same.{same_node, same_node-Decides};

    ghost laws = { decided same_node same_node-Decides };
}

/// A copy is equal.
impl Clone for Node {
    ghost use Rattle.std.specs.Prelude.{◌≡◌};

    ghost is_clone = { λ a b. b ≡ a };

    fn clone(&self) -> Result<Node, AllocError> {
        match self {
            Node::Step(step) => Ok(Node::Step(step.clone()?)),
            Node::Closing(closing) => Ok(Node::Closing(closing.clone()?)),
        }
    }
}

impl PartialEq for Lemma {
    ghost use Rattle.std.specs.Cmp.{partial_equiv_from_equiv, decided};
    ghost use Rattle.sc_deriv.specs.Same.{same_lemma, same_lemma-Decides};

    ghost eq = { same_lemma };

    ghost laws = { partial_equiv_from_equiv (decided same_lemma same_lemma-Decides) };

    fn eq(&self, other: &Lemma) -> bool {
        self.hypotheses == other.hypotheses && self.nodes == other.nodes
    }
}

impl Eq for Lemma {
    ghost use Rattle.std.specs.Cmp.{decided};
    ghost use Rattle.sc_deriv.specs.Same.{same_lemma, same_lemma-Decides};

    ghost laws = { decided same_lemma same_lemma-Decides };
}

/// A copy is equal.
impl Clone for Lemma {
    ghost use Rattle.std.specs.Prelude.{◌≡◌};

    ghost is_clone = { λ a b. b ≡ a };

    fn clone(&self) -> Result<Lemma, AllocError> {
        Ok(Lemma {
            hypotheses: self.hypotheses.clone()?,
            nodes: self.nodes.clone()?,
        })
    }
}

impl PartialEq for Derivation {
    ghost use Rattle.std.specs.Cmp.{partial_equiv_from_equiv, decided};
    ghost use Rattle.sc_deriv.specs.Same.{same_derivation, same_derivation-Decides};

    ghost eq = { same_derivation };

    ghost laws = { partial_equiv_from_equiv (decided same_derivation same_derivation-Decides) };

    fn eq(&self, other: &Derivation) -> bool {
        self.lemmas == other.lemmas && self.nodes == other.nodes
    }
}

impl Eq for Derivation {
    ghost use Rattle.std.specs.Cmp.{decided};
    ghost use Rattle.sc_deriv.specs.Same.{same_derivation, same_derivation-Decides};

    ghost laws = { decided same_derivation same_derivation-Decides };
}

/// A copy is equal.
impl Clone for Derivation {
    ghost use Rattle.std.specs.Prelude.{◌≡◌};

    ghost is_clone = { λ a b. b ≡ a };

    fn clone(&self) -> Result<Derivation, AllocError> {
        Ok(Derivation {
            lemmas: self.lemmas.clone()?,
            nodes: self.nodes.clone()?,
        })
    }
}
