//! Laws of elaboration.

ghost use Rattle.std.specs.Prelude.{◌≡◌, ℕ, List, Ok, Err, true};
ghost use Rattle.sc_text.specs.declared.code.Code.{Code};
ghost use Rattle.sc_sexpr.specs.Shapes.{Shape};
ghost use Rattle.sc_terms.specs.declared.nodes.Node.{Node};
ghost use Rattle.sc_terms.specs.declared.nodes.Sort.{Sort};
ghost use Rattle.sc_terms.specs.Bank.{IsBank, Begins, IsFormulaOf, HasSorts};
ghost use Rattle.sc_terms.specs.BankValues.{bank_meaning};
ghost use Rattle.sc_terms.specs.Meaning.{Interpretation, IsInterpretation};
ghost use Rattle.sc_sorts.specs.Posed.{IsPosedBank};
ghost use Rattle.sc_stack.specs.declared.stack.Constant.{Constant};
ghost use Rattle.sc_stack.specs.Names.{Names, IsSort, sorts_of, with_sort, with_constant};
ghost use Rattle.sc_elab.specs.States.{State, Done, Fault};
ghost use Rattle.sc_elab.specs.Elab.{core};
ghost use Rattle.sc_elab.specs.Sorts.{sort_of};
ghost use Rattle.sc_elab.specs.Faults.{is_term_fault, is_sort_fault};
ghost use Rattle.sc_elab.specs.Value.{Truth, truth, term_value};

use sc_stack::{constants_have_sorts, names_have_numbers};
use sc_terms::{bank_grows, bank_meanings_fit, bank_with_node, meanings_stay};

/// A term's core formula keeps its meaning: under every interpretation the term is worth the truth value that the bank gives the formula.
pub fn elaboration_keeps_meaning()
    ensures value { (t : Shape) (s : State) (n : ℕ) (bank : List Node) → IsBank s.bank → core t s ≡ Done n bank → (i : Interpretation) → IsInterpretation i → term_value s.names i t ≡ Truth ((bank_meaning bank i).truth n) }
    ensures truth { (t : Shape) (s : State) (n : ℕ) (bank : List Node) → IsBank s.bank → core t s ≡ Done n bank → (i : Interpretation) → IsInterpretation i → (bank_meaning bank i).truth n ≡ truth (term_value s.names i t) }
{
    bank_meanings_fit();
    meanings_stay();
    bank_with_node();
    bank_grows();
}

/// Elaboration adds nodes at the end of the bank: the formula found is one of the new bank, and the formulas of the old one mean what they meant. Where a term is refused the bank begins as it did, too.
pub fn elaboration_grows_bank()
    ensures bank { (t : Shape) (s : State) (n : ℕ) (bank : List Node) → IsBank s.bank → core t s ≡ Done n bank → IsBank bank × Begins s.bank bank × IsFormulaOf bank n }
    ensures fault { (t : Shape) (s : State) (code : Code) (bank : List Node) → core t s ≡ Fault code bank → Begins s.bank bank }
    ensures stays { (t : Shape) (s : State) (n : ℕ) (bank : List Node) → IsBank s.bank → core t s ≡ Done n bank → (i : Interpretation) → IsInterpretation i → (m : ℕ) → IsFormulaOf s.bank m → (bank_meaning bank i).truth m ≡ (bank_meaning s.bank i).truth m }
{
    bank_meanings_fit();
    meanings_stay();
    bank_with_node();
    bank_grows();
    constants_have_sorts();
}

/// A bank whose formulas may be posed stays one behind the elaboration of a term, whether this makes a formula or ends at a fault: it stays well sorted, its constants have their sorts, and no inequality, Int term or card is put into it.
pub fn elaboration_keeps_posed()
    ensures done { (t : Shape) (s : State) (n : ℕ) (bank : List Node) → IsBank s.bank → IsPosedBank (sorts_of s.names) s.bank → core t s ≡ Done n bank → IsPosedBank (sorts_of s.names) bank }
    ensures fault { (t : Shape) (s : State) (code : Code) (bank : List Node) → IsBank s.bank → IsPosedBank (sorts_of s.names) s.bank → core t s ≡ Fault code bank → IsPosedBank (sorts_of s.names) bank }
{
    bank_with_node();
    constants_have_sorts();
}

/// A sort that is read is built in, or made of a sort that was declared, so that constants of it may be.
pub fn read_sorts_are_declared()
    ensures { (names : Names) (t : Shape) (sort : Sort) → sort_of names t ≡ Ok sort → IsSort names sort }
{
    names_have_numbers();
}

/// The constants of a bank keep their sorts as more is declared.
pub fn declarations_keep_sorts()
    ensures sort { (names : Names) (name : List ℕ) (bank : List Node) → HasSorts (sorts_of names) bank → HasSorts (sorts_of (with_sort names name)) bank }
    ensures constant { (names : Names) (constant : Constant) (bank : List Node) → HasSorts (sorts_of names) bank → HasSorts (sorts_of (with_constant names constant)) bank }
{}

/// The faults of a term are that it is out of its shape (`E5`), that a name isn't in force (`E6`), a wrong sort or number of arguments (`E7`), that something is outside the profile (`E8`), and `E16` with one of two limits: 1,000 for the depth of a term and 200,000 for the distinct terms of a script. A sort has no other faults than `E5`, `E6` and `E8`.
pub fn faults_are_named()
    ensures term { (t : Shape) (s : State) (fault : Code) (bank : List Node) → core t s ≡ Fault fault bank → is_term_fault fault ≡ true }
    ensures sort { (names : Names) (t : Shape) (fault : Code) → sort_of names t ≡ Err fault → is_sort_fault fault ≡ true }
{}
