//! The set terms that operators make of their arguments, and inclusion.
//!
//! Arguments are given by the numbers of their nodes in the bank. A node's parts are put before it, from left to right. The fault is `E16` where a node is new and the bank is full; what was put before stays.

ghost use Rattle.std.specs.Prelude.{◌≡◌};
ghost use Rattle.std.specs.List.{AllByRecursion};
ghost use Rattle.sc_terms.specs.declared.nodes.Node.TheVariants as nodes;
ghost use Rattle.sc_terms.specs.Bank.{NodeStands, IsFormulaOf, IsSetOf, IsElementOf};
ghost use Rattle.sc_elab.specs.States.{each};
ghost use Rattle.sc_elab.specs.States as states;
ghost use Rattle.sc_elab.specs.Growth.{Builds, IsCompoundSet, AreSets, AreInserted};
ghost use Rattle.sc_elab.specs.Builds as spec;

use crate::build::put_formula;
use crate::error::ElabError;
use sc_terms::{Bank, BankError, Formula, LIMIT, Numbers, Sequence, SetTerm, Sort};
use sc_text::Code;
use std::alloc::Global;

/// How sets are joined.
#[derive(Clone, Copy)]
pub enum Join {
    /// What is in one of the sets.
    Union,
    /// What is in all of the sets.
    Inter,
}

/// Puts a set term of others into the bank.
pub fn put_set_term(set: SetTerm, bank: &mut Bank) -> Result<u32, ElabError>
    requires stands { NodeStands bank.old (nodes.Set set) }
    requires compound { IsCompoundSet set }
    ensures { Builds IsSetOf (states.put_set set bank.old) bank.old result bank.new }
{
    match bank.set(set) {
        Ok(number) => Ok(number),
        Err(BankError::Full) => Err(ElabError::Fault(Code::E16(LIMIT as u64))),
        Err(BankError::Memory) => Err(ElabError::Memory),
    }
}

/// Puts the union of two sets.
fn put_union(s: u32, t: u32, bank: &mut Bank) -> Result<u32, ElabError>
    requires s { IsSetOf bank.old s }
    requires t { IsSetOf bank.old t }
    ensures { Builds IsSetOf (spec.union s t bank.old) bank.old result bank.new }
{
    put_set_term(SetTerm::Union(s, t), bank)
}

/// Puts two sets joined.
fn put_joined(join: Join, s: u32, t: u32, bank: &mut Bank) -> Result<u32, ElabError>
    requires s { IsSetOf bank.old s }
    requires t { IsSetOf bank.old t }
    ensures { Builds IsSetOf (spec.joined join s t bank.old) bank.old result bank.new }
{
    match join {
        Join::Union => put_union(s, t, bank),
        Join::Inter => put_set_term(SetTerm::Inter(s, t), bank),
    }
}

/// `set.union` and `set.inter`, grouped from the left.
pub fn grouped(join: Join, first: u32, rest: &[u32], bank: &mut Bank) -> Result<u32, ElabError>
    requires first { IsSetOf bank.old first }
    requires rest { AreSets bank.old rest.now }
    ensures { Builds IsSetOf (spec.grouped join first rest.now bank.old) bank.old result bank.new }
{
    let mut made = first;
    for next in rest {
        match put_joined(join, made, *next, bank) {
            Ok(number) => made = number,
            Err(error) => return Err(error),
        }
    }
    Ok(made)
}

/// The sets of one of the elements each, in order.
fn singles(alloc: Global, elements: &[u32], bank: &mut Bank) -> Result<Numbers, ElabError>
    requires { AllByRecursion (IsElementOf bank.old) elements.now }
    ensures { Builds AreSets (each spec.single elements.now bank.old) bank.old result bank.new }
{
    let mut made = Sequence::new(alloc);
    for element in elements {
        match put_set_term(SetTerm::Single(*element), bank) {
            Ok(number) => {
                if made.push(number).is_err() {
                    return Err(ElabError::Memory);
                }
            }
            Err(error) => return Err(error),
        }
    }
    Ok(made)
}

/// From the last single to the first, its union with what is made.
fn united(singles: &[u32], last: u32, bank: &mut Bank) -> Result<u32, ElabError>
    requires singles { AreSets bank.old singles.now }
    requires last { IsSetOf bank.old last }
    ensures { Builds IsSetOf (spec.nested spec.union singles.now last bank.old) bank.old result bank.new }
{
    let mut made = last;
    for index in (0..singles.len()).rev() {
        match put_union(singles[index], made, bank) {
            Ok(number) => made = number,
            Err(error) => return Err(error),
        }
    }
    Ok(made)
}

/// `set.insert`: the elements first, the set last.
pub fn insertion(alloc: Global, arguments: &[u32], bank: &mut Bank) -> Result<u32, ElabError>
    requires { AreInserted bank.old arguments.now }
    ensures { Builds IsSetOf (spec.insertion arguments.now bank.old) bank.old result bank.new }
{
    let [elements @ .., set] = arguments else {
        return Err(ElabError::Fault(Code::E7));
    };
    match singles(alloc, elements, bank) {
        Ok(singles) => united(singles.as_slice(), *set, bank),
        Err(error) => Err(error),
    }
}

/// `set.subset` of sets of a sort: what the first has alone is empty.
pub fn inclusion(sort: Sort, s: u32, t: u32, bank: &mut Bank) -> Result<u32, ElabError>
    requires s { IsSetOf bank.old s }
    requires t { IsSetOf bank.old t }
    ensures { Builds IsFormulaOf (spec.inclusion sort s t bank.old) bank.old result bank.new }
{
    let rest = match put_set_term(SetTerm::Minus(s, t), bank) {
        Ok(number) => number,
        Err(error) => return Err(error),
    };
    match put_set_term(SetTerm::Empty(sort), bank) {
        Ok(empty) => put_formula(Formula::EqSet(rest, empty), bank),
        Err(error) => Err(error),
    }
}
