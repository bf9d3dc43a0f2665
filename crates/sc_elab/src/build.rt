//! The core formulas and set terms that operators make of their arguments.
//!
//! Arguments are given by the numbers of their nodes in the bank. A node's parts are put before it, from left to right. The fault is `E16` where a node is new and the bank is full; what was put before stays.

ghost use Rattle.std.specs.Prelude.{◌≡◌, ◌<◌, ◌+◌, ◌∷◌, [], ◌++◌, length, drop, IfOk, IfErr, map};
ghost use Rattle.sc_terms.specs.declared.nodes.Node.TheVariants as nodes;
ghost use Rattle.sc_terms.specs.Bank.{NodeStands, IsFormulaOf};
ghost use Rattle.sc_elab.specs.declared.error.ElabError.TheVariants.{Memory};
ghost use Rattle.sc_elab.specs.States.{Done, bind, each};
ghost use Rattle.sc_elab.specs.States as states;
ghost use Rattle.sc_terms.specs.declared.nodes.Sort.TheVariants as sorts;
ghost use Rattle.sc_elab.specs.Growth.{Builds, IsCompound, AreFormulas, IsOfSort, AreOfSort, Suits, Makes};
ghost use Rattle.sc_elab.specs.Builds as spec;

use crate::error::ElabError;
use crate::set_terms::{Join, grouped, inclusion, insertion, put_set_term};
use crate::words::Operator;
use sc_terms::{Bank, BankError, Formula, LIMIT, Numbers, Sequence, SetTerm, Sort};
use sc_text::Code;
use std::alloc::Global;

/// Why a node isn't put.
pub fn put_error(error: BankError) -> ElabError
    ensures { result ≡ states.put_error error }
{
    match error {
        BankError::Full => ElabError::Fault(Code::E16(LIMIT as u64)),
        BankError::Memory => ElabError::Memory,
    }
}

/// Puts a formula of others into the bank.
pub fn put_formula(formula: Formula, bank: &mut Bank) -> Result<u32, ElabError>
    requires stands { NodeStands bank.old (nodes.Formula formula) }
    requires compound { IsCompound formula }
    ensures { Builds IsFormulaOf (states.put_formula formula bank.old) bank.old result bank.new }
{
    match bank.formula(formula) {
        Ok(number) => Ok(number),
        Err(BankError::Full) => Err(ElabError::Fault(Code::E16(LIMIT as u64))),
        Err(BankError::Memory) => Err(ElabError::Memory),
    }
}

/// A list of two numbers.
fn pair(alloc: Global, x: u32, y: u32) -> Result<Numbers, ElabError>
    ensures ok { IfOk result (λ xs. xs ≡ x ∷ y ∷ []) }
    ensures err { IfErr result (λ e. e ≡ Memory) }
{
    match Sequence::from_slice(alloc, &[x, y]) {
        Ok(numbers) => Ok(numbers),
        Err(_) => Err(ElabError::Memory),
    }
}

/// Puts the `or` of two formulas.
fn put_or(alloc: Global, f: u32, g: u32, bank: &mut Bank) -> Result<u32, ElabError>
    requires f { IsFormulaOf bank.old f }
    requires g { IsFormulaOf bank.old g }
    ensures { Builds IsFormulaOf (spec.disjunction f g bank.old) bank.old result bank.new }
{
    match pair(alloc, f, g) {
        Ok(parts) => put_formula(Formula::Or(parts), bank),
        Err(error) => Err(error),
    }
}

/// Two things of a sort are equal.
fn equal(sort: Sort, x: u32, y: u32) -> Formula
    ensures { result ≡ spec.equal sort x y }
{
    match sort {
        Sort::Bool => Formula::Iff(x, y),
        Sort::Int | Sort::Named(_) => Formula::Eq(x, y),
        Sort::SetInt | Sort::SetNamed(_) => Formula::EqSet(x, y),
    }
}

/// Puts the equation of two things of a sort.
fn equation(sort: Sort, x: u32, y: u32, bank: &mut Bank) -> Result<u32, ElabError>
    requires x { IsOfSort bank.old sort x }
    requires y { IsOfSort bank.old sort y }
    ensures { Builds IsFormulaOf (spec.equation sort (x, y) bank.old) bank.old result bank.new }
{
    put_formula(equal(sort, x, y), bank)
}

/// Puts that two things of a sort are not equal.
fn difference(sort: Sort, x: u32, y: u32, bank: &mut Bank) -> Result<u32, ElabError>
    requires x { IsOfSort bank.old sort x }
    requires y { IsOfSort bank.old sort y }
    ensures { Builds IsFormulaOf (spec.difference sort (x, y) bank.old) bank.old result bank.new }
{
    match equation(sort, x, y, bank) {
        Ok(equal) => put_formula(Formula::Not(equal), bank),
        Err(error) => Err(error),
    }
}

/// `xor`, grouped from the left.
fn exclusive(first: u32, rest: &[u32], bank: &mut Bank) -> Result<u32, ElabError>
    requires first { IsFormulaOf bank.old first }
    requires rest { AreFormulas bank.old rest.now }
    ensures { Builds IsFormulaOf (spec.exclusive first rest.now bank.old) bank.old result bank.new }
{
    let mut made = first;
    for next in rest {
        match difference(Sort::Bool, made, *next, bank) {
            Ok(number) => made = number,
            Err(error) => return Err(error),
        }
    }
    Ok(made)
}

/// The negations of formulas, in order.
fn negations(alloc: Global, formulas: &[u32], bank: &mut Bank) -> Result<Numbers, ElabError>
    requires { AreFormulas bank.old formulas.now }
    ensures { Builds AreFormulas (each spec.negation formulas.now bank.old) bank.old result bank.new }
{
    let mut made = Sequence::new(alloc);
    for formula in formulas {
        match put_formula(Formula::Not(*formula), bank) {
            Ok(number) => {
                if made.push(number).is_err() {
                    return Err(ElabError::Memory);
                }
            }
            Err(error) => return Err(error),
        }
    }
    Ok(made)
}

/// The equations of neighbours, in order.
fn equations(
    alloc: Global,
    sort: Sort,
    first: u32,
    rest: &[u32],
    bank: &mut Bank,
) -> Result<Numbers, ElabError>
    requires first { IsOfSort bank.old sort first }
    requires rest { AreOfSort bank.old sort rest.now }
    ensures { Builds AreFormulas (each (spec.equation sort) (spec.neighbours (first ∷ rest.now)) bank.old) bank.old result bank.new }
{
    let mut made = Sequence::new(alloc);
    let mut last = first;
    for next in rest {
        match equation(sort, last, *next, bank) {
            Ok(number) => {
                if made.push(number).is_err() {
                    return Err(ElabError::Memory);
                }
            }
            Err(error) => return Err(error),
        }
        last = *next;
    }
    Ok(made)
}

/// The differences of a thing of a sort from others, behind those that are made.
fn more_differences(
    mut made: Numbers,
    sort: Sort,
    first: u32,
    others: &[u32],
    bank: &mut Bank,
) -> Result<Numbers, ElabError>
    requires made { AreFormulas bank.old made }
    requires first { IsOfSort bank.old sort first }
    requires others { AreOfSort bank.old sort others.now }
    ensures { Builds AreFormulas (bind (each (spec.difference sort) (map (λ y. (first, y)) others.now) bank.old) (λ ns b. Done (made ++ ns) b)) bank.old result bank.new }
{
    for other in others {
        match difference(sort, first, *other, bank) {
            Ok(number) => {
                if made.push(number).is_err() {
                    return Err(ElabError::Memory);
                }
            }
            Err(error) => return Err(error),
        }
    }
    Ok(made)
}

/// The numbers behind the one at an index.
fn behind(numbers: &[u32], index: usize) -> &[u32]
    requires { index < length numbers.now }
    ensures { result.now ≡ drop (index + 1) numbers.now }
{
    &numbers[index + 1..]
}

/// The differences of all pairs of things of a sort, those of the first first.
fn differences(
    alloc: Global,
    sort: Sort,
    things: &[u32],
    bank: &mut Bank,
) -> Result<Numbers, ElabError>
    requires { AreOfSort bank.old sort things.now }
    ensures { Builds AreFormulas (each (spec.difference sort) (spec.pairs things.now) bank.old) bank.old result bank.new }
{
    let mut made = Sequence::new(alloc);
    for index in 0..things.len() {
        match more_differences(made, sort, things[index], behind(things, index), bank) {
            Ok(more) => made = more,
            Err(error) => return Err(error),
        }
    }
    Ok(made)
}

/// One formula stands for itself, several for their `and`.
fn conjunction(formulas: Numbers, bank: &mut Bank) -> Result<u32, ElabError>
    requires { AreFormulas bank.old formulas }
    ensures { Builds IsFormulaOf (spec.conjunction formulas bank.old) bank.old result bank.new }
{
    if formulas.len() == 1 {
        return Ok(formulas.as_slice()[0]);
    }
    put_formula(Formula::And(formulas), bank)
}

/// From the last negation to the first, its `or` with what is made.
fn disjunctions(
    alloc: Global,
    negations: &[u32],
    last: u32,
    bank: &mut Bank,
) -> Result<u32, ElabError>
    requires negations { AreFormulas bank.old negations.now }
    requires last { IsFormulaOf bank.old last }
    ensures { Builds IsFormulaOf (spec.nested spec.disjunction negations.now last bank.old) bank.old result bank.new }
{
    let mut made = last;
    for index in (0..negations.len()).rev() {
        match put_or(alloc, negations[index], made, bank) {
            Ok(number) => made = number,
            Err(error) => return Err(error),
        }
    }
    Ok(made)
}

/// `=>`, grouped from the right.
fn implication(alloc: Global, formulas: &[u32], bank: &mut Bank) -> Result<u32, ElabError>
    requires { AreFormulas bank.old formulas.now }
    ensures { Builds IsFormulaOf (spec.implication formulas.now bank.old) bank.old result bank.new }
{
    let [front @ .., last] = formulas else {
        return Err(ElabError::Fault(Code::E7));
    };
    match negations(alloc, front, bank) {
        Ok(negations) => disjunctions(alloc, negations.as_slice(), *last, bank),
        Err(error) => Err(error),
    }
}

/// `=`: all neighbours are equal.
fn chain(
    alloc: Global,
    sort: Sort,
    first: u32,
    rest: &[u32],
    bank: &mut Bank,
) -> Result<u32, ElabError>
    requires first { IsOfSort bank.old sort first }
    requires rest { AreOfSort bank.old sort rest.now }
    ensures { Builds IsFormulaOf (spec.chain sort first rest.now bank.old) bank.old result bank.new }
{
    match equations(alloc, sort, first, rest, bank) {
        Ok(made) => conjunction(made, bank),
        Err(error) => Err(error),
    }
}

/// `distinct`: no two are equal.
fn apart(alloc: Global, sort: Sort, things: &[u32], bank: &mut Bank) -> Result<u32, ElabError>
    requires { AreOfSort bank.old sort things.now }
    ensures { Builds IsFormulaOf (spec.apart sort things.now bank.old) bank.old result bank.new }
{
    match differences(alloc, sort, things, bank) {
        Ok(made) => conjunction(made, bank),
        Err(error) => Err(error),
    }
}

/// `ite`.
fn choice(alloc: Global, c: u32, f: u32, g: u32, bank: &mut Bank) -> Result<u32, ElabError>
    requires c { IsFormulaOf bank.old c }
    requires f { IsFormulaOf bank.old f }
    requires g { IsFormulaOf bank.old g }
    ensures { Builds IsFormulaOf (spec.choice c f g bank.old) bank.old result bank.new }
{
    let negation = match put_formula(Formula::Not(c), bank) {
        Ok(number) => number,
        Err(error) => return Err(error),
    };
    let first = match put_or(alloc, negation, f, bank) {
        Ok(number) => number,
        Err(error) => return Err(error),
    };
    let second = match put_or(alloc, c, g, bank) {
        Ok(number) => number,
        Err(error) => return Err(error),
    };
    match pair(alloc, first, second) {
        Ok(parts) => put_formula(Formula::And(parts), bank),
        Err(error) => Err(error),
    }
}

/// The core formula or set term of an operator with as many arguments as it takes, of the right
/// sorts, the first of which has the sort. Another number of arguments is `E7`.
pub fn build(
    alloc: Global,
    operator: Operator,
    sort: Sort,
    arguments: Numbers,
    bank: &mut Bank,
) -> Result<u32, ElabError>
    requires { Suits bank.old operator sort arguments }
    ensures { Builds (Makes operator) (spec.build operator sort arguments bank.old) bank.old result bank.new }
{
    match operator {
        Operator::And => put_formula(Formula::And(arguments), bank),
        Operator::Or => put_formula(Formula::Or(arguments), bank),
        Operator::Not => match arguments.as_slice() {
            [f] => put_formula(Formula::Not(*f), bank),
            _ => Err(ElabError::Fault(Code::E7)),
        },
        Operator::Implies => implication(alloc, arguments.as_slice(), bank),
        Operator::Xor => match arguments.as_slice() {
            [first, rest @ ..] => exclusive(*first, rest, bank),
            [] => Err(ElabError::Fault(Code::E7)),
        },
        Operator::Equal => match arguments.as_slice() {
            [first, rest @ ..] => chain(alloc, sort, *first, rest, bank),
            [] => Err(ElabError::Fault(Code::E7)),
        },
        Operator::Distinct => apart(alloc, sort, arguments.as_slice(), bank),
        Operator::Choice => match arguments.as_slice() {
            [c, f, g] => choice(alloc, *c, *f, *g, bank),
            _ => Err(ElabError::Fault(Code::E7)),
        },
        Operator::Member => match arguments.as_slice() {
            [element, set] => put_formula(Formula::Member(*element, *set), bank),
            _ => Err(ElabError::Fault(Code::E7)),
        },
        Operator::Subset => match arguments.as_slice() {
            [s, t] => inclusion(sort, *s, *t, bank),
            _ => Err(ElabError::Fault(Code::E7)),
        },
        Operator::Union => match arguments.as_slice() {
            [first, rest @ ..] => grouped(Join::Union, *first, rest, bank),
            [] => Err(ElabError::Fault(Code::E7)),
        },
        Operator::Inter => match arguments.as_slice() {
            [first, rest @ ..] => grouped(Join::Inter, *first, rest, bank),
            [] => Err(ElabError::Fault(Code::E7)),
        },
        Operator::Minus => match arguments.as_slice() {
            [s, t] => put_set_term(SetTerm::Minus(*s, *t), bank),
            _ => Err(ElabError::Fault(Code::E7)),
        },
        Operator::Singleton => match arguments.as_slice() {
            [element] => put_set_term(SetTerm::Single(*element), bank),
            _ => Err(ElabError::Fault(Code::E7)),
        },
        Operator::Insert => insertion(alloc, arguments.as_slice(), bank),
    }
}
