//! The stack of names and assertions.

ghost use Rattle.std.specs.Prelude.{◌≡◌, ◌∷◌, [], ◌++◌, ◌+◌, ◌&&◌, nat_le, if◌then◌else◌, is_none, option_map, OnOk, OnErr, IfErr, Some, None};
ghost use Rattle.std.specs.Map.{lookup};
ghost use Rattle.std.specs.Str.{bytes_eq};
ghost use Rattle.std.specs.Option.{option_copied};
ghost use Rattle.sc_base.specs.Numbered.{item_at};
ghost use Rattle.sc_text.specs.Names.{is_free_in_bars};
ghost use Rattle.sc_stack.specs.Names.{Names, no_names, look_up, assertions_in_force, constants_in_force, with_assertion, DeclaresSort, DeclaresConstant, IsNumber, IsSort, IsNames, sorts_of, last_number, fault_of, NumberFor};
ghost use Rattle.sc_stack.specs.declared.stack.StackError.TheVariants as errors;

use indexmap::IndexMap;
use sc_base::Sequence;
use sc_terms::{Memory, Sort};
use sc_text::{Code, is_free_in_bars};
use std::alloc::{AllocError, Global};
use std::marker::Model;

/// The numbers of each kind end here.
const LAST_NUMBER: u64 = 4_294_967_295;

/// A declared constant.
#[derive(Drop)]
pub struct Constant {
    /// Its name, without bars.
    pub name: Sequence<u8>,
    /// Its sort.
    pub sort: Sort,
}

/// What a name in force names.
#[derive(Clone, Copy)]
pub enum Named {
    /// A declared sort, by its number.
    Sort(u32),
    /// A constant, by its number, and its sort.
    Constant(u32, Sort),
}

/// Why a declaration isn't done.
#[derive(Clone, Copy)]
pub enum StackError {
    /// `E9` for a name that can't be declared or is in force, `E16` where no number is left.
    Fault(Code),
    /// There was no memory.
    Memory,
}

impl From<AllocError> for StackError {
    ghost use Rattle.std.specs.Prelude.{◌≡◌};
    ghost use Rattle.sc_stack.specs.declared.stack.StackError.TheVariants as errors;

    ghost from_gives = { λ e f. f ≡ errors.Memory };

    fn from(_error: AllocError) -> StackError {
        StackError::Memory
    }
}

/// The number that comes after those of this many things, or nothing where no number is left.
fn next_number(count: usize) -> Option<u32>
    ensures { result ≡ (if nat_le last_number count then None else Some (count + 1)) }
{
    if count >= LAST_NUMBER as usize {
        return None;
    }
    Some(count as u32 + 1)
}

/// Enters a name that is not in the table. With the error the table stays as it was.
fn enter(
    table: &mut IndexMap<Vec<u8>, Named>,
    name: Vec<u8>,
    named: Named,
) -> Result<(), StackError>
    requires { lookup (λ key. bytes_eq name.items key.items) table.old.entries ≡ None }
    ensures ok { OnOk result (table.new.entries ≡ table.old.entries ++ (name, named) ∷ []) }
    ensures err { IfErr result (λ e. (e ≡ errors.Memory) × (table.new.entries ≡ table.old.entries)) }
{
    if table.insert(name, named).is_err() {
        return Err(StackError::Memory);
    }
    Ok(())
}

/// The names and assertions of a script; seen as everything that was ever declared, and the levels that stand.
#[derive(Drop)]
pub struct Stack {
    alloc: Global,
    /// Each name in force, with what it names.
    table: IndexMap<Vec<u8>, Named>,
    /// The names of the sorts, by their numbers.
    sorts: Vec<Sequence<u8>>,
    /// The constants, by their numbers.
    constants: Vec<Constant>,
    /// The numbers of what is in force, each in the order in which it came.
    sorts_in_force: Vec<u32>,
    constants_in_force: Vec<u32>,
    assertions: Vec<u32>,
}

impl Model for Stack {
    ghost use Rattle.std.specs.Prelude.{[], ◌∷◌};
    ghost use Rattle.sc_stack.specs.Names.{Names, IsNames};
    ghost use Rattle.sc_stack.specs.Tables.{IsIndexed, names_of};

    ghost Value = { Names };

    ghost view = { λ s. names_of s.sorts.items s.constants.items s.sorts_in_force.items s.constants_in_force.items s.assertions.items };

    ghost invariant = { λ s. IsNames (names_of s.sorts.items s.constants.items s.sorts_in_force.items s.constants_in_force.items s.assertions.items) × IsIndexed (λ key. key.items) s.table.entries (names_of s.sorts.items s.constants.items s.sorts_in_force.items s.constants_in_force.items s.assertions.items) };
}

impl Stack {
    /// The start of a script: nothing is declared or asserted. Takes no memory.
    pub fn new(alloc: Global) -> Stack
        ensures { result ≡ no_names }
    {
        Stack {
            alloc,
            table: IndexMap::new(alloc),
            sorts: Vec::new(alloc),
            constants: Vec::new(alloc),
            sorts_in_force: Vec::new(alloc),
            constants_in_force: Vec::new(alloc),
            assertions: Vec::new(alloc),
        }
    }

    /// Whether the name may be declared: no theory and no solver keeps it, and it isn't in force. A reserved word may, as it stands between bars.
    fn is_free(&self, name: &[u8]) -> bool
        ensures { result ≡ (is_free_in_bars name.now && is_none (look_up self.now name.now)) }
    {
        is_free_in_bars(name) && self.look_up(name).is_none()
    }

    /// The number that a new name gets, where this many of its kind were given.
    fn number_for(&self, name: &[u8], count: usize) -> Result<u32, StackError>
        ensures { NumberFor result (fault_of self.now name.now count) (count + 1) }
    {
        if !self.is_free(name) {
            return Err(StackError::Fault(Code::E9));
        }
        match next_number(count) {
            Some(number) => Ok(number),
            None => Err(StackError::Fault(Code::E16(LAST_NUMBER))),
        }
    }

    /// Declares a sort, and gives its number. The fault is `E9` where the name begins with `@` or `.`, which SMT-LIB 2.6 keeps for solvers, has a meaning of its own in the core theory, in the theory of integers or in cvc5's theory of finite sets, or is in force; else `E16` where 4,294,967,295 sorts were declared. With an error the stack stays as it was.
    pub fn declare_sort(&mut self, name: &[u8]) -> Result<u32, StackError>
        ensures { DeclaresSort self.old name.now result self.new }
    {
        let number = self.number_for(name, self.sorts.len())?;
        let kept = Sequence::from_slice(self.alloc, name)?;
        let key = Vec::from_slice(self.alloc, name)?;
        self.sorts.reserve(1)?;
        self.sorts_in_force.reserve(1)?;
        enter(&mut self.table, key, Named::Sort(number))?;
        self.sorts.push_reserved(kept);
        self.sorts_in_force.push_reserved(number);
        Ok(number)
    }

    /// Declares a constant of a sort, and gives its number. The fault is `E9` where the name begins with `@` or `.`, which SMT-LIB 2.6 keeps for solvers, has a meaning of its own in the core theory, in the theory of integers or in cvc5's theory of finite sets, or is in force; else `E16` where 4,294,967,295 constants were declared. With an error the stack stays as it was.
    pub fn declare(&mut self, name: &[u8], sort: Sort) -> Result<u32, StackError>
        requires { IsSort self.old sort }
        ensures { DeclaresConstant self.old (record { name = name.now; sort = sort }) result self.new }
    {
        let number = self.number_for(name, self.constants.len())?;
        let kept = Sequence::from_slice(self.alloc, name)?;
        let key = Vec::from_slice(self.alloc, name)?;
        self.constants.reserve(1)?;
        self.constants_in_force.reserve(1)?;
        enter(&mut self.table, key, Named::Constant(number, sort))?;
        self.constants.push_reserved(Constant { name: kept, sort });
        self.constants_in_force.push_reserved(number);
        Ok(number)
    }

    /// Asserts a formula, by its number in the bank, at the last level. Where memory is refused the stack stays as it was.
    pub fn assert(&mut self, formula: u32) -> Result<(), Memory>
        ensures ok { OnOk result (self.new ≡ with_assertion self.old formula) }
        ensures err { OnErr result (self.new ≡ self.old) }
    {
        self.assertions.push(formula)?;
        Ok(())
    }

    /// What a name names, given without bars, or nothing where no such name is in force. The name is found by its hash.
    pub fn look_up(&self, name: &[u8]) -> Option<Named>
        ensures names { result ≡ look_up self.now name.now }
        ensures stack { IsNames self.now }
    {
        self.table.get(name).copied()
    }

    /// The numbers of the asserted formulas that are in force, in the order of their assertions.
    pub fn in_force(&self) -> &[u32]
        ensures { result.now ≡ assertions_in_force self.now }
    {
        self.assertions.as_slice()
    }

    /// The numbers of the constants that are in force, in the order of their declarations.
    pub fn constants(&self) -> &[u32]
        ensures constants { result.now ≡ constants_in_force self.now }
        ensures stack { IsNames self.now }
    {
        self.constants_in_force.as_slice()
    }

    /// The constant with this number.
    fn constant(&self, number: u32) -> &Constant
        requires { IsNumber self.now.constants number }
        ensures { item_at self.now.constants number ≡ Some result.now }
    {
        &self.constants[number as usize - 1]
    }

    /// The name of a constant, without bars, by its number.
    pub fn constant_name(&self, number: u32) -> &[u8]
        requires { IsNumber self.now.constants number }
        ensures { option_map (λ (c : Constant). c.name) (item_at self.now.constants number) ≡ Some result.now }
    {
        self.constant(number).name.as_slice()
    }

    /// The sort of a constant, by its number.
    #[tactic(auto, using(crate::proofs::Found::sort_of_constant))]
    pub fn constant_sort(&self, number: u32) -> Sort
        requires { IsNumber self.now.constants number }
        ensures { item_at (sorts_of self.now) number ≡ Some result }
    {
        self.constant(number).sort
    }

    /// The name of a declared sort, without bars, by its number.
    pub fn sort_name(&self, number: u32) -> &[u8]
        requires { IsNumber self.now.sorts number }
        ensures { item_at self.now.sorts number ≡ Some result.now }
    {
        self.sorts[number as usize - 1].as_slice()
    }
}
