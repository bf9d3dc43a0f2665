//! Spreading the signs of a path to the formulas' parts, and from parts to formulas: unit propagation with a counter for each formula.

ghost use Rattle.std.specs.Prelude.{OnOk};
ghost use Rattle.sc_branch.specs.Growing.{GoesOn};

use crate::agenda::{Agenda, News, Signed};
use crate::growth::Growing;
use crate::members::{
    follow_different, follow_equal, follow_equal_sets, follow_member, follow_unequal_sets,
    spread_singles,
};
use crate::said::Said;
use crate::task::Task;
use sc_facts::Fact;
use sc_rules::PlainStep;
use sc_terms::{Formula, Memory, Problem};
use std::alloc::Global;

/// Tries a step that would give a formula this sign.
fn attempt_sign(
    growing: &mut Growing,
    task: Task<'_>,
    signed: Signed,
    step: PlainStep,
) -> Result<(), Memory>
    ensures { OnOk result (GoesOn task.entry.problem.now task.entry.budget growing.old growing.new) }
{
    if growing.path().has(&Fact::Sign(signed.formula, signed.sign)) {
        return Ok(());
    }
    task.attempt(growing, step)
}

/// Gives each part of an `and` or an `or` the formula's sign.
fn spread_to_all(
    growing: &mut Growing,
    task: Task<'_>,
    signed: Signed,
    parts: &[u32],
) -> Result<(), Memory>
    ensures { OnOk result (GoesOn task.entry.problem.now task.entry.budget growing.old growing.new) }
{
    let mut place = 0;
    for part in parts {
        if place == u32::MAX {
            return Ok(());
        }
        place += 1;
        let due = Signed {
            formula: *part,
            sign: signed.sign,
        };
        let step = PlainStep::All(signed.formula, place);
        attempt_sign(growing, task, due, step)?;
    }
    Ok(())
}

/// The place, from 1, of the first part that lacks the sign.
fn lacking_place(growing: &Growing, parts: &[u32], sign: bool) -> Option<u32> {
    let mut place = 0;
    for part in parts {
        if place == u32::MAX {
            return None;
        }
        place += 1;
        if !growing.path().has(&Fact::Sign(*part, sign)) {
            return Some(place);
        }
    }
    None
}

/// Gives the part of a false `and`, or of a true `or`, that alone lacks the other sign that sign.
fn spread_to_last(growing: &mut Growing, task: Task<'_>, formula: u32) -> Result<(), Memory>
    ensures { OnOk result (GoesOn task.entry.problem.now task.entry.budget growing.old growing.new) }
{
    let place = match task.problem.find_formula(formula) {
        Some(Formula::And(parts)) => lacking_place(growing, parts.as_slice(), true),
        Some(Formula::Or(parts)) => lacking_place(growing, parts.as_slice(), false),
        _ => None,
    };
    match place {
        Some(place) => task.attempt(growing, PlainStep::Unit(formula, place)),
        None => Ok(()),
    }
}

/// Tries the steps at a formula by which its parts get signs.
fn spread_down(
    growing: &mut Growing,
    agenda: &Agenda,
    task: Task<'_>,
    signed: Signed,
) -> Result<(), Memory>
    ensures { OnOk result (GoesOn task.entry.problem.now task.entry.budget growing.old growing.new) }
{
    let formula = signed.formula;
    match (task.problem.find_formula(formula), signed.sign) {
        (Some(Formula::Member(_, _) | Formula::Eq(_, _) | Formula::EqSet(_, _)), _) => {
            task.attempt(growing, PlainStep::Atom(formula))
        }
        (Some(Formula::And(parts)), true) | (Some(Formula::Or(parts)), false) => {
            spread_to_all(growing, task, signed, parts.as_slice())
        }
        (Some(Formula::And(_)), false) | (Some(Formula::Or(_)), true) => {
            if agenda.lacking(formula) > 1 {
                return Ok(());
            }
            spread_to_last(growing, task, formula)
        }
        (Some(Formula::Not(_)), _) => { task.attempt(growing, PlainStep::Unit(formula, 1)) }
        (Some(Formula::Iff(_, _)), _) => {
            task.attempt(growing, PlainStep::Unit(formula, 1))?;
            task.attempt(growing, PlainStep::Unit(formula, 2))
        }
        _ => Ok(()),
    }
}

/// Tries the steps at a formula that a new sign of one of its parts calls for.
fn spread_up(
    growing: &mut Growing,
    agenda: &mut Agenda,
    task: Task<'_>,
    parent: u32,
    sign: bool,
) -> Result<(), Memory>
    ensures { OnOk result (GoesOn task.entry.problem.now task.entry.budget growing.old growing.new) }
{
    let own = PlainStep::Unit(parent, 0);
    let counts = match task.problem.find_formula(parent) {
        Some(Formula::And(_)) => sign,
        Some(Formula::Or(_)) => !sign,
        Some(Formula::Iff(_, _)) => {
            task.attempt(growing, PlainStep::Unit(parent, 1))?;
            task.attempt(growing, PlainStep::Unit(parent, 2))?;
            return task.attempt(growing, own);
        }
        _ => return task.attempt(growing, own),
    };
    if !counts {
        let due = Signed {
            formula: parent,
            sign,
        };
        return attempt_sign(growing, task, due, own);
    }
    agenda.count_part(parent);
    spread_when_few(growing, agenda, task, parent)
}

/// Tries the steps at an `and` or an `or` of which at most one part is lacking.
fn spread_when_few(
    growing: &mut Growing,
    agenda: &Agenda,
    task: Task<'_>,
    formula: u32,
) -> Result<(), Memory>
    ensures { OnOk result (GoesOn task.entry.problem.now task.entry.budget growing.old growing.new) }
{
    match agenda.lacking(formula) {
        0 => task.attempt(growing, PlainStep::Unit(formula, 0)),
        1 => spread_to_last(growing, task, formula),
        _ => Ok(()),
    }
}

/// Tries the steps at the formulas of which this one is a part.
fn spread_to_parents(
    growing: &mut Growing,
    agenda: &mut Agenda,
    task: Task<'_>,
    signed: Signed,
) -> Result<(), Memory>
    ensures { OnOk result (GoesOn task.entry.problem.now task.entry.budget growing.old growing.new) }
{
    for parent in task.fixed.parents.of(signed.formula) {
        spread_up(growing, agenda, task, *parent, signed.sign)?;
    }
    Ok(())
}

/// Gives the constants `true` and `false` their signs.
fn spread_constants(growing: &mut Growing, task: Task<'_>) -> Result<(), Memory>
    ensures { OnOk result (GoesOn task.entry.problem.now task.entry.budget growing.old growing.new) }
{
    for place in 0..task.problem.counts().formulas {
        if let Formula::True | Formula::False = task.problem.formula(place + 1) {
            task.attempt(growing, PlainStep::Unit(place + 1, 0))?;
        }
    }
    Ok(())
}

/// Takes the steps that what a fact says calls for.
fn follow(
    growing: &mut Growing,
    tables: &mut Tables,
    task: Task<'_>,
    news: News,
) -> Result<(), Memory>
    ensures { OnOk result (GoesOn task.entry.problem.now task.entry.budget growing.old growing.new) }
{
    let agenda = &mut tables.agenda;
    let said = &mut tables.said;
    match news {
        News::Sign(signed) => {
            spread_down(growing, agenda, task, signed)?;
            spread_to_parents(growing, agenda, task, signed)
        }
        News::Member(e, s) => follow_member(growing, said, task, e, s),
        News::Equal(e, f, true) => follow_equal(growing, said, task, e, f),
        News::Equal(e, f, false) => { follow_different(growing, said, task, e, f) }
        News::EqualSets(s, t, true) => { follow_equal_sets(growing, said, task, s, t) }
        News::EqualSets(s, t, false) => { follow_unequal_sets(growing, said, task, s, t) }
        News::Nothing => Ok(()),
    }
}

/// What is kept beside a path to spread what it says.
#[derive(Drop)]
pub(crate) struct Tables {
    pub agenda: Agenda,
    pub said: Said,
}

impl Tables {
    /// The tables over a path of a problem of which nothing was followed up; linear in the problem.
    pub(crate) fn new(alloc: Global, problem: &Problem) -> Result<Tables, Memory> {
        Ok(Tables {
            agenda: Agenda::new(alloc, problem)?,
            said: Said::new(alloc, problem)?,
        })
    }
}

/// Takes steps that conclude new facts, until the followed-up path has no more for which the tables have a hint, a clash stands, or the budget is spent.
pub(crate) fn spread(
    growing: &mut Growing,
    tables: &mut Tables,
    task: Task<'_>,
) -> Result<(), Memory>
    ensures { OnOk result (GoesOn task.entry.problem.now task.entry.budget growing.old growing.new) }
{
    if tables.agenda.is_fresh() {
        spread_constants(growing, task)?;
        spread_singles(growing, task)?;
    }
    for _ in 0..u64::MAX {
        if growing.clash().is_some() {
            return Ok(());
        }
        let Some(news) = tables.agenda.next(growing.path()) else {
            return Ok(());
        };
        follow(growing, tables, task, news)?;
    }
    Ok(())
}
