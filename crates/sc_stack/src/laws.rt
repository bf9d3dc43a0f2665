//! Laws of the names.

ghost use Rattle.std.specs.Prelude.{◌≡◌, ℕ, List, Some, slice_get};
ghost use Rattle.sc_base.specs.Numbered.{item_at};
ghost use Rattle.sc_terms.specs.declared.nodes.Sort.{Sort};
ghost use Rattle.sc_stack.specs.declared.stack.Constant.{Constant};
ghost use Rattle.sc_stack.specs.declared.stack.Named.TheVariants as named;
ghost use Rattle.sc_stack.specs.Names.{Names, look_up, sorts_of, sorts_in_force, constants_in_force, IsNumber, IsNames, IsSort};

/// A name that names a constant gives the constant's own sort.
pub fn constants_have_sorts()
    ensures { (names : Names) (name : List ℕ) (number : ℕ) (sort : Sort) → look_up names name ≡ Some (named.Constant number sort) → item_at (sorts_of names) number ≡ Some sort }
{}

/// What a name names has a number that was given, and the sort of a constant is one of the names' own.
pub fn names_have_numbers()
    ensures sorts { (names : Names) (name : List ℕ) (number : ℕ) → look_up names name ≡ Some (named.Sort number) → IsNumber names.sorts number }
    ensures constants { (names : Names) (name : List ℕ) (number : ℕ) (sort : Sort) → look_up names name ≡ Some (named.Constant number sort) → IsNumber names.constants number }
    ensures sorts_of_constants { (names : Names) (name : List ℕ) (number : ℕ) (sort : Sort) → IsNames names → look_up names name ≡ Some (named.Constant number sort) → IsSort names sort }
{}

/// What is in force is found by its own name, so no two things in force share a name: sorts and constants have one name space.
pub fn own_names_are_found()
    ensures sorts { (names : Names) (place number : ℕ) (name : List ℕ) → IsNames names → slice_get (sorts_in_force names) place ≡ Some number → item_at names.sorts number ≡ Some name → look_up names name ≡ Some (named.Sort number) }
    ensures constants { (names : Names) (place number : ℕ) (constant : Constant) → IsNames names → slice_get (constants_in_force names) place ≡ Some number → item_at names.constants number ≡ Some constant → look_up names constant.name ≡ Some (named.Constant number constant.sort) }
{}
