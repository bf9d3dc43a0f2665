//! Laws of the definitions.

ghost use Rattle.sc_terms.specs.Literals.{LiteralsMakeProblem};
ghost use Rattle.sc_terms.specs.Forms.{CubesAscendAsWords};
ghost use Rattle.std.specs.Prelude.{◌≡◌, ℕ, ◌-◌, true, List, ◌++◌, take, Some};
ghost use Rattle.sc_base.specs.Numbered.{item_at};
ghost use Rattle.sc_terms.specs.declared.nodes.Node.{Node};
ghost use Rattle.sc_terms.specs.declared.nodes.Sort.{Sort};
ghost use Rattle.sc_terms.specs.Bank.{takes, with_node, number_of, Begins, IsFormulaOf, IsSetOf, IsElementOf, NodeStands, IsBank, NodeHasSorts, HasSorts};
ghost use Rattle.sc_terms.specs.BankValues.{BankMeaningsFit, MeaningsStay};
ghost use Rattle.sc_terms.specs.Conditions.{MeaningsFit};

/// Each interpretation gives the nodes of a problem values that fit: every node's value is what its own equation says of its parts' values.
#[tactic(auto, using(crate::proofs::Extension::meanings_fit))]
pub fn meanings_fit()
    ensures { MeaningsFit }
{}

/// The order of regions of one component is that of their words as bytes, `+` and `-`: the first byte that differs decides, and a front comes before what it begins.
#[tactic(auto, using(crate::proofs::Words::cubes_ascend_as_words))]
pub fn cubes_ascend_as_words()
    ensures { CubesAscendAsWords }
{}

/// Lists of memberships of constants and their negations alone, in which each set is a component of its own, make a problem.
#[tactic(auto, using(crate::proofs::Small::literals_make_problem))]
pub fn literals_make_problem()
    ensures { LiteralsMakeProblem }
{}

/// Where a bank takes a node that stands on its nodes, it is a bank with it, which begins with the old one and has the node at its number.
#[tactic(auto, using(crate::proofs::Puts::bank_takes, crate::proofs::Puts::begins_with, crate::proofs::Puts::number_stands))]
pub fn bank_with_node()
    ensures bank { (bank : List Node) (x : Node) → IsBank bank → NodeStands bank x → takes bank x ≡ true → IsBank (with_node bank x) }
    ensures begins { (bank : List Node) (x : Node) → Begins bank (with_node bank x) }
    ensures number { (bank : List Node) (x : Node) → item_at (with_node bank x) (number_of bank x) ≡ Some x }
{}

/// A node keeps its number as the bank grows, and what stands on a bank stands on each that begins with it.
#[tactic(auto, using(crate::proofs::Grown::node_stays, crate::proofs::Grown::formula_stays, crate::proofs::Grown::set_stays, crate::proofs::Grown::element_stays, crate::proofs::Grown::parts_stay, crate::proofs::Grown::begins_again))]
pub fn bank_grows()
    ensures node { (old new : List Node) → Begins old new → (n : ℕ) → (x : Node) → item_at old n ≡ Some x → item_at new n ≡ Some x }
    ensures formula { (old new : List Node) → Begins old new → (n : ℕ) → IsFormulaOf old n → IsFormulaOf new n }
    ensures set { (old new : List Node) → Begins old new → (n : ℕ) → IsSetOf old n → IsSetOf new n }
    ensures element { (old new : List Node) → Begins old new → (n : ℕ) → IsElementOf old n → IsElementOf new n }
    ensures parts { (old new : List Node) → Begins old new → (x : Node) → NodeStands old x → NodeStands new x }
    ensures onward { (first second third : List Node) → Begins first second → Begins second third → Begins first third }
{}

/// A node of a bank has one number, and stands on nodes of the bank with lower numbers. The front of a bank is a bank.
#[tactic(auto, using(crate::proofs::Grown::one_number, crate::proofs::Grown::stands_below, crate::proofs::Grown::front_of_bank))]
pub fn bank_nodes()
    ensures one { (bank : List Node) → IsBank bank → (m n : ℕ) → (x : Node) → item_at bank m ≡ Some x → item_at bank n ≡ Some x → m ≡ n }
    ensures parts { (bank : List Node) → IsBank bank → (n : ℕ) → (x : Node) → item_at bank n ≡ Some x → NodeStands (take (n - 1) bank) x }
    ensures front { (bank more : List Node) → IsBank (bank ++ more) → IsBank bank }
{}

/// A bank whose constants have their sorts has them with one more node whose constants have theirs.
#[tactic(auto, using(crate::proofs::Grown::sorts_with))]
pub fn bank_sorts()
    ensures { (known : List Sort) (bank : List Node) (x : Node) → HasSorts known bank → NodeHasSorts known x → HasSorts known (with_node bank x) }
{}

/// Each interpretation gives the nodes of a bank values that fit: every node's value is what its own equation says of its parts' values.
#[tactic(auto, using(crate::proofs::BankMeanings::bank_meanings_fit))]
pub fn bank_meanings_fit()
    ensures { BankMeaningsFit }
{}

/// A bank that begins with another gives the other's nodes the same values.
pub fn meanings_stay()
    ensures { MeaningsStay }
{}
