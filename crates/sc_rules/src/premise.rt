//! The premises of steps: the facts of a path that a step's condition names.

ghost use Rattle.std.specs.Prelude.{◌≡◌, ◌≤◌, true, ◌++◌, [], length, Some, None, IsSome, OnOk};
ghost use Rattle.sc_rules.specs.Boolean.{part_at};
ghost use Rattle.sc_terms.specs.declared.nodes.Formula.TheVariants as nodes;
ghost use Rattle.sc_rules.specs.Needs.{IsDue, IsDuePlaces, found};
ghost use Rattle.sc_rules.specs.Pairs.{equal_fact, same_set_fact};
ghost use Rattle.sc_rules.specs.Needs as spec;

use crate::boolean::{all_have, atom_with, has_sign, others_have, part_at};
use crate::members::single_of;
use crate::pairs::{equal_fact, same_set_fact};
use crate::step::{PlainStep, StepError, names_fact};
use sc_facts::{Fact, Facts, Path};
use sc_sorts::may_hold;
use sc_terms::{Formula, Memory, Problem, SetTerm};
use std::alloc::Global;

/// One fact or two, in this order.
#[derive(Drop)]
struct Few {
    first: Fact,
    second: Option<Fact>,
}

/// The fact, where it stands on the path.
fn given(path: &Path, fact: Fact) -> Option<Few>
    ensures { found result ≡ spec.given path.now.facts fact }
{
    if !path.has(&fact) {
        return None;
    }
    Some(Few {
        first: fact,
        second: None,
    })
}

/// Both facts, where both stand on the path.
fn both(path: &Path, first: Fact, second: Fact) -> Option<Few>
    ensures { found result ≡ spec.both path.now.facts first second }
{
    if path.has(&first) && path.has(&second) {
        Some(Few {
            first,
            second: Some(second),
        })
    } else {
        None
    }
}

/// The first facts, or else the others.
fn otherwise(first: Option<Few>, others: Option<Few>) -> Option<Few>
    ensures { found result ≡ spec.otherwise (found first) (found others) }
{
    match first {
        Some(few) => Some(few),
        None => others,
    }
}

/// Whether the one place is before the other, or there is no other.
fn is_before(place: Option<usize>, other: Option<usize>) -> bool
    ensures { result ≡ spec.is_before place other }
{
    match (place, other) {
        (Some(m), Some(n)) => m < n,
        (Some(_), None) => true,
        (None, _) => false,
    }
}

/// The earlier of the best fact so far and one more, where that stands on the path.
fn earlier(path: &Path, best: Option<Fact>, fact: Fact) -> Option<Fact>
    ensures { result ≡ spec.earlier path.now.facts best fact }
{
    match best {
        None => { if path.has(&fact) { Some(fact) } else { None } }
        Some(best) => {
            if is_before(path.first_place(&fact), path.first_place(&best)) {
                Some(fact)
            } else {
                Some(best)
            }
        }
    }
}

/// A fact alone, where there is one.
fn alone(fact: Option<Fact>) -> Option<Few>
    ensures { found result ≡ spec.listed fact }
{
    match fact {
        Some(first) => Some(Few {
            first,
            second: None,
        }),
        None => None,
    }
}

/// The one of two facts that stands first on the path.
fn either(path: &Path, first: Fact, second: Fact) -> Option<Few>
    ensures { found result ≡ spec.either path.now.facts first second }
{
    let best = earlier(path, None, first);
    alone(earlier(path, best, second))
}

/// The first fact on the path that gives one of the formulas the sign.
fn earliest_sign(path: &Path, formulas: &[u32], sign: bool) -> Option<Fact>
    ensures { result ≡ spec.earliest path.now.facts None (spec.signs formulas.now sign) }
{
    let mut best: Option<Fact> = None;
    for formula in formulas {
        best = earlier(path, best, Fact::Sign(*formula, sign));
    }
    best
}

/// The same, as a premise.
fn some_given(path: &Path, formulas: &[u32], sign: bool) -> Option<Few>
    ensures { found result ≡ spec.some_given path.now.facts formulas.now sign }
{
    alone(earliest_sign(path, formulas, sign))
}

/// The sign that the path gives the formula, a plus where it gives both.
fn signed(path: &Path, formula: u32) -> Option<Few>
    ensures { found result ≡ spec.signed path.now.facts formula }
{
    otherwise(
        given(path, Fact::Sign(formula, true)),
        given(path, Fact::Sign(formula, false)),
    )
}

/// The same, a minus where it gives both.
fn denied(path: &Path, formula: u32) -> Option<Few>
    ensures { found result ≡ spec.denied path.now.facts formula }
{
    otherwise(
        given(path, Fact::Sign(formula, false)),
        given(path, Fact::Sign(formula, true)),
    )
}

/// That two formulas have equal signs.
fn agreeing(path: &Path, f: u32, g: u32) -> Option<Few>
    ensures { found result ≡ spec.agreeing path.now.facts f g }
{
    otherwise(
        both(path, Fact::Sign(f, true), Fact::Sign(g, true)),
        both(path, Fact::Sign(f, false), Fact::Sign(g, false)),
    )
}

/// That two formulas have different signs.
fn differing_signs(path: &Path, f: u32, g: u32) -> Option<Few>
    ensures { found result ≡ spec.differing_signs path.now.facts f g }
{
    otherwise(
        both(path, Fact::Sign(f, true), Fact::Sign(g, false)),
        both(path, Fact::Sign(f, false), Fact::Sign(g, true)),
    )
}

/// The signs of two formulas, equal ones where the path gives those too.
fn signed_pair(path: &Path, f: u32, g: u32) -> Option<Few>
    ensures { found result ≡ spec.signed_pair path.now.facts f g }
{
    otherwise(agreeing(path, f, g), differing_signs(path, f, g))
}

/// The list of one fact or two, or that the step does not apply. The only other error is want of memory.
fn list_of(alloc: Global, few: Option<Few>) -> Result<Facts, StepError>
    ensures { IsDue result (found few) }
{
    let Some(few) = few else {
        return Err(StepError::NotApplicable);
    };
    let mut facts = Facts::one(alloc, few.first)?;
    if let Some(second) = few.second {
        facts.push(second)?;
    }
    Ok(facts)
}

/// Adds that each formula has the sign. The only error is want of memory.
fn add_signs(facts: &mut Facts, formulas: &[u32], sign: bool) -> Result<(), Memory>
    ensures { OnOk result (facts.new ≡ facts.old ++ spec.signs formulas.now sign) }
{
    for formula in formulas {
        match facts.push(Fact::Sign(*formula, sign)) {
            Ok(()) => {}
            Err(e) => return Err(e),
        }
    }
    Ok(())
}

/// That all formulas have the sign. The only error is want of memory.
fn signs(alloc: Global, formulas: &[u32], sign: bool) -> Result<Facts, StepError>
    ensures { IsDue result (Some (spec.signs formulas.now sign)) }
{
    let mut facts = Facts::new(alloc);
    add_signs(&mut facts, formulas, sign)?;
    Ok(facts)
}

/// The premises of the sign of an `and`, from its parts.
pub fn and_premises(alloc: Global, path: &Path, parts: &[u32]) -> Result<Facts, StepError>
    ensures { IsDue result (spec.own_premises path.now.facts (nodes.And parts.now)) }
{
    if all_have(path, parts, true) {
        return signs(alloc, parts, true);
    }
    list_of(alloc, some_given(path, parts, false))
}

/// The premises of the sign of an `or`, from its parts.
pub fn or_premises(alloc: Global, path: &Path, parts: &[u32]) -> Result<Facts, StepError>
    ensures { IsDue result (spec.own_premises path.now.facts (nodes.Or parts.now)) }
{
    let some = some_given(path, parts, true);
    if some.is_none() && all_have(path, parts, false) {
        return signs(alloc, parts, false);
    }
    list_of(alloc, some)
}

/// What forces the sign of a formula, from its parts.
fn own_premises(alloc: Global, path: &Path, node: &Formula) -> Result<Facts, StepError>
    ensures { IsDue result (spec.own_premises path.now.facts node.now) }
{
    match node {
        Formula::True | Formula::False => Ok(Facts::new(alloc)),
        Formula::Not(f) => list_of(alloc, denied(path, *f)),
        Formula::And(parts) => and_premises(alloc, path, parts.as_slice()),
        Formula::Or(parts) => or_premises(alloc, path, parts.as_slice()),
        Formula::Iff(f, g) => list_of(alloc, signed_pair(path, *f, *g)),
        _ => Err(StepError::NotApplicable),
    }
}

/// That formula `number` has the sign, and each of its parts but the one at this place the opposite sign.
fn all_but(
    alloc: Global,
    path: &Path,
    number: u32,
    parts: &[u32],
    place: usize,
    sign: bool,
) -> Result<Facts, StepError>
    requires first { 1 ≤ place }
    requires last { place ≤ length parts.now }
    ensures { IsDue result (spec.all_but path.now.facts number parts.now place sign) }
{
    if !has_sign(path, number, sign) || !others_have(path, parts, place, !sign) {
        return Err(StepError::NotApplicable);
    }
    let mut facts = Facts::one(alloc, Fact::Sign(number, sign))?;
    add_signs(&mut facts, &parts[..place - 1], !sign)?;
    add_signs(&mut facts, &parts[place..], !sign)?;
    Ok(facts)
}

/// What forces the sign of the part at a place of formula `number`, which is this node.
fn part_premises(
    alloc: Global,
    path: &Path,
    number: u32,
    node: &Formula,
    place: u32,
) -> Result<Facts, StepError>
    requires { IsSome (part_at node.now place) }
    ensures { IsDue result (spec.part_premises path.now.facts number node.now place) }
{
    match node {
        Formula::Not(_) => list_of(alloc, denied(path, number)),
        Formula::And(parts) => {
            all_but(alloc, path, number, parts.as_slice(), place as usize, false)
        }
        Formula::Or(parts) => all_but(alloc, path, number, parts.as_slice(), place as usize, true),
        Formula::Iff(f, g) => {
            let other = if place == 1 { *g } else { *f };
            list_of(alloc, signed_pair(path, number, other))
        }
        _ => Err(StepError::NotApplicable),
    }
}

/// The premises of `unit`.
fn unit_premises(
    alloc: Global,
    problem: &Problem,
    path: &Path,
    number: u32,
    place: u32,
) -> Result<Facts, StepError>
    ensures { IsDue result (spec.unit_premises problem.now path.now.facts number place) }
{
    let Some(node) = problem.find_formula(number) else {
        return Err(StepError::NotApplicable);
    };
    if place == 0 {
        return own_premises(alloc, path, node);
    }
    let Some(_) = part_at(node, place) else {
        return Err(StepError::NotApplicable);
    };
    part_premises(alloc, path, number, node, place)
}

/// The plus of an `and`, or the minus of an `or`.
fn parts_premises(path: &Path, number: u32, node: &Formula) -> Option<Few>
    ensures { found result ≡ spec.parts_premises path.now.facts number node.now }
{
    match node {
        Formula::And(_) => given(path, Fact::Sign(number, true)),
        Formula::Or(_) => given(path, Fact::Sign(number, false)),
        _ => None,
    }
}

/// The premises of `all`.
fn all_premises(problem: &Problem, path: &Path, number: u32, place: u32) -> Option<Few>
    ensures { found result ≡ spec.all_premises problem.now path.now.facts number place }
{
    let node = problem.find_formula(number)?;
    part_at(node, place)?;
    parts_premises(path, number, node)
}

/// The premises of `atom`.
fn atom_premises(problem: &Problem, path: &Path, number: u32) -> Option<Few>
    ensures { found result ≡ spec.atom_premises problem.now path.now.facts number }
{
    let node = problem.find_formula(number)?;
    atom_with(node, true)?;
    signed(path, number)
}

/// Where the path has an element, in the set or outside it; in it where the path has both.
fn placed_in(path: &Path, e: u32, s: u32) -> Option<Few>
    ensures { found result ≡ spec.placed_in path.now.facts e s }
{
    otherwise(
        given(path, Fact::Member(e, s, true)),
        given(path, Fact::Member(e, s, false)),
    )
}

/// What forces the membership of an element at a place of set term n, the union of a and b.
fn union_premises(path: &Path, e: u32, n: u32, a: u32, b: u32, place: u32) -> Option<Few>
    ensures { found result ≡ spec.union_premises path.now.facts e n a b place }
{
    match place {
        0 => otherwise(
            either(path, Fact::Member(e, a, true), Fact::Member(e, b, true)),
            both(path, Fact::Member(e, a, false), Fact::Member(e, b, false)),
        ),
        1 => otherwise(
            both(path, Fact::Member(e, n, true), Fact::Member(e, b, false)),
            given(path, Fact::Member(e, n, false)),
        ),
        2 => otherwise(
            both(path, Fact::Member(e, n, true), Fact::Member(e, a, false)),
            given(path, Fact::Member(e, n, false)),
        ),
        _ => None,
    }
}

/// The same for an intersection.
fn inter_premises(path: &Path, e: u32, n: u32, a: u32, b: u32, place: u32) -> Option<Few>
    ensures { found result ≡ spec.inter_premises path.now.facts e n a b place }
{
    match place {
        0 => otherwise(
            both(path, Fact::Member(e, a, true), Fact::Member(e, b, true)),
            either(path, Fact::Member(e, a, false), Fact::Member(e, b, false)),
        ),
        1 => otherwise(
            given(path, Fact::Member(e, n, true)),
            both(path, Fact::Member(e, n, false), Fact::Member(e, b, true)),
        ),
        2 => otherwise(
            given(path, Fact::Member(e, n, true)),
            both(path, Fact::Member(e, n, false), Fact::Member(e, a, true)),
        ),
        _ => None,
    }
}

/// The same for a difference.
fn minus_premises(path: &Path, e: u32, n: u32, a: u32, b: u32, place: u32) -> Option<Few>
    ensures { found result ≡ spec.minus_premises path.now.facts e n a b place }
{
    match place {
        0 => otherwise(
            both(path, Fact::Member(e, a, true), Fact::Member(e, b, false)),
            either(path, Fact::Member(e, a, false), Fact::Member(e, b, true)),
        ),
        1 => otherwise(
            given(path, Fact::Member(e, n, true)),
            both(path, Fact::Member(e, n, false), Fact::Member(e, b, false)),
        ),
        2 => otherwise(
            both(path, Fact::Member(e, n, false), Fact::Member(e, a, true)),
            given(path, Fact::Member(e, n, true)),
        ),
        _ => None,
    }
}

/// The premises of `op` but at an empty set.
fn operator_premises(path: &Path, e: u32, n: u32, node: &SetTerm, place: u32) -> Option<Few>
    ensures { found result ≡ spec.operator_premises path.now.facts e n node.now place }
{
    match node {
        SetTerm::Union(a, b) => union_premises(path, e, n, *a, *b, place),
        SetTerm::Inter(a, b) => inter_premises(path, e, n, *a, *b, place),
        SetTerm::Minus(a, b) => minus_premises(path, e, n, *a, *b, place),
        _ => None,
    }
}

/// The premises of `op`.
fn op_premises(
    alloc: Global,
    problem: &Problem,
    path: &Path,
    e: u32,
    n: u32,
    place: u32,
) -> Result<Facts, StepError>
    ensures { IsDue result (spec.op_premises problem.now path.now.facts e n place) }
{
    let Some(node) = problem.find_set(n) else {
        return Err(StepError::NotApplicable);
    };
    match node {
        SetTerm::Empty(_) => no_premises(alloc, place == 0 && may_hold(problem, n, e)),
        _ => list_of(alloc, operator_premises(path, e, n, node, place)),
    }
}

/// No premises, where a step that needs none applies. The only other error is want of memory.
fn no_premises(alloc: Global, applies: bool) -> Result<Facts, StepError>
    ensures { IsDue result (spec.no_premises applies) }
{
    if applies {
        Ok(Facts::new(alloc))
    } else {
        Err(StepError::NotApplicable)
    }
}

/// The premises of `single`.
fn into_single_premises(problem: &Problem, path: &Path, e: u32, s: u32) -> Option<Few>
    ensures { found result ≡ spec.into_single_premises problem.now path.now.facts e s }
{
    let one = single_of(problem, s)?;
    otherwise(
        given(path, equal_fact(e, one, true)),
        given(path, equal_fact(e, one, false)),
    )
}

/// The premises of `unsingle`.
fn from_single_premises(problem: &Problem, path: &Path, e: u32, s: u32) -> Option<Few>
    ensures { found result ≡ spec.from_single_premises problem.now path.now.facts e s }
{
    single_of(problem, s)?;
    placed_in(path, e, s)
}

/// The premises of `carry`.
fn carry_premises(path: &Path, e: u32, f: u32, s: u32) -> Option<Few>
    ensures { found result ≡ spec.with_placed path.now.facts (equal_fact e f true) e s }
{
    otherwise(
        both(path, equal_fact(e, f, true), Fact::Member(e, s, true)),
        both(path, equal_fact(e, f, true), Fact::Member(e, s, false)),
    )
}

/// The premises of `move`.
fn move_premises(path: &Path, e: u32, s: u32, t: u32) -> Option<Few>
    ensures { found result ≡ spec.with_placed path.now.facts (same_set_fact s t true) e s }
{
    otherwise(
        both(path, same_set_fact(s, t, true), Fact::Member(e, s, true)),
        both(path, same_set_fact(s, t, true), Fact::Member(e, s, false)),
    )
}

/// That element e is in set s and f is outside t, or the reverse.
fn on_both_sides(path: &Path, e: u32, s: u32, f: u32, t: u32) -> Option<Few>
    ensures { found result ≡ spec.on_both_sides path.now.facts e s f t }
{
    otherwise(
        both(path, Fact::Member(e, s, true), Fact::Member(f, t, false)),
        both(path, Fact::Member(e, s, false), Fact::Member(f, t, true)),
    )
}

/// The premises of `eqstep`.
fn equal_step_premises(path: &Path, e: u32, f: u32, g: u32) -> Option<Few>
    ensures { found result ≡ spec.chain_premises path.now.facts (equal_fact e f) (equal_fact f g) }
{
    let same = both(path, equal_fact(e, f, true), equal_fact(f, g, true));
    let last_differs = both(path, equal_fact(e, f, true), equal_fact(f, g, false));
    let first_differs = both(path, equal_fact(e, f, false), equal_fact(f, g, true));
    otherwise(same, otherwise(last_differs, first_differs))
}

/// The premises of `seqstep`.
fn set_step_premises(path: &Path, s: u32, t: u32, u: u32) -> Option<Few>
    ensures { found result ≡ spec.chain_premises path.now.facts (same_set_fact s t) (same_set_fact t u) }
{
    let same = both(path, same_set_fact(s, t, true), same_set_fact(t, u, true));
    let last_differs = both(path, same_set_fact(s, t, true), same_set_fact(t, u, false));
    let first_differs = both(path, same_set_fact(s, t, false), same_set_fact(t, u, true));
    otherwise(same, otherwise(last_differs, first_differs))
}

/// The premises of `differ`.
fn differ_premises(problem: &Problem, path: &Path, s: u32, t: u32) -> Option<Few>
    ensures { found result ≡ spec.differ_premises problem.now path.now.facts s t }
{
    problem.diff_of(s, t)?;
    given(path, same_set_fact(s, t, false))
}

/// The premises of a step at a path, in the order in which its condition names them: the facts of the path that force what it concludes. Where several facts would do, the first on the path; where they support both signs, those of the plus.
///
/// `NotApplicable` comes exactly where the step does not apply. The only other error is want of memory. Each fact is looked up, with no walk along the path.
pub fn premises(
    alloc: Global,
    problem: &Problem,
    path: &Path,
    step: &PlainStep,
) -> Result<Facts, StepError>
    ensures { IsDue result (spec.premises problem.now path.now.facts step.now) }
{
    match step {
        PlainStep::Unit(formula, place) => unit_premises(alloc, problem, path, *formula, *place),
        PlainStep::Cut(name) => no_premises(alloc, names_fact(problem, name)),
        PlainStep::Op(e, s, place) => op_premises(alloc, problem, path, *e, *s, *place),
        PlainStep::EqRefl(e) => no_premises(alloc, problem.find_element(*e).is_some()),
        PlainStep::SeqRefl(s) => no_premises(alloc, problem.find_set(*s).is_some()),
        _ => list_of(alloc, few_premises(problem, path, step)),
    }
}

/// The premises of a step that has one or two of them.
fn few_premises(problem: &Problem, path: &Path, step: &PlainStep) -> Option<Few>
    ensures { found result ≡ spec.few_premises problem.now path.now.facts step.now }
{
    match step {
        PlainStep::Atom(formula) => atom_premises(problem, path, *formula),
        PlainStep::All(formula, place) => all_premises(problem, path, *formula, *place),
        PlainStep::Single(e, s) => into_single_premises(problem, path, *e, *s),
        PlainStep::Unsingle(e, s) => from_single_premises(problem, path, *e, *s),
        PlainStep::Carry(e, f, s) => carry_premises(path, *e, *f, *s),
        PlainStep::Apart(e, f, s) => on_both_sides(path, *e, *s, *f, *s),
        PlainStep::Move(e, s, t) => move_premises(path, *e, *s, *t),
        PlainStep::SetApart(e, s, t) => on_both_sides(path, *e, *s, *e, *t),
        PlainStep::EqStep(e, f, g) => equal_step_premises(path, *e, *f, *g),
        PlainStep::SeqStep(s, t, u) => set_step_premises(path, *s, *t, *u),
        PlainStep::Differ(s, t) => differ_premises(problem, path, *s, *t),
        _ => None,
    }
}

/// The first place of each fact, from 0, or that one of them does not stand on the path. The only other error is want of memory.
fn places_of(alloc: Global, path: &Path, facts: &[Fact]) -> Result<Vec<usize>, StepError>
    ensures { IsDuePlaces result (spec.places_from path.now.facts [] facts.now) }
{
    let mut places: Vec<usize> = Vec::new(alloc);
    for fact in facts {
        let Some(place) = path.first_place(fact) else {
            return Err(StepError::NotApplicable);
        };
        match places.push(place) {
            Ok(()) => {}
            Err(_) => return Err(StepError::Memory),
        }
    }
    Ok(places)
}

/// The first places of a step's premises on a path, from 0, in the order in which its condition names them; errors as for the premises.
///
/// A slice of a path marks these places, walking from its end to its start: a step counts where it added a fact at a marked place, since that is the first place of the fact, and the hypotheses come in path order by one walk along the marks. No fact is copied or compared.
pub fn premise_places(
    alloc: Global,
    problem: &Problem,
    path: &Path,
    step: &PlainStep,
) -> Result<Vec<usize>, StepError>
    ensures { IsDuePlaces result (spec.premise_places problem.now path.now.facts step.now) }
{
    let facts = premises(alloc, problem, path, step)?;
    places_of(alloc, path, facts.as_slice())
}
