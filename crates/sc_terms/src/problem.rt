//! Problems.

ghost use Rattle.std.specs.Prelude.{◌≡◌, ◌<◌, ◌≤◌, length, Some, IfSome, is_none, true, not};
ghost use Rattle.std.specs.List.{list_any};
ghost use Rattle.std.specs.Option.{option_copied};
ghost use Rattle.sc_terms.specs.Lookup.{formula_at, set_at, element_at, is_listed, component_of, is_empty_set, sets_of, basis_of, is_diff_of, is_diff_at, diff_of, is_counted};
ghost use Rattle.sc_terms.specs.Conditions.{IsIn, IsProblem};
ghost use Rattle.sc_terms.specs.Regions.{is_component, is_region};

use crate::atoms::Cube;
use crate::lookups::{first_diff, first_with, has_plus, some_element_counts, some_formula_counts};
use crate::nodes::{Element, Formula, Numbers, SetTerm};
use sc_base::{Sequence, item_at};
use std::marker::Model;

/// Formulas by their numbers.
pub type Formulas = Sequence<Formula>;

/// Set terms by their numbers.
pub type Sets = Sequence<SetTerm>;

/// Elements by their numbers.
pub type Elements = Sequence<Element>;

/// Lists of set terms.
pub type Bases = Sequence<Numbers>;

/// The lists that make a problem.
#[derive(Drop)]
pub struct Parts {
    /// The formulas that are to be true.
    pub roots: Numbers,
    /// The assertions' own numbers, in the order of the roots.
    pub assertions: Numbers,
    pub formulas: Formulas,
    pub sets: Sets,
    pub elements: Elements,
    /// The Int constants.
    pub ints: Numbers,
    /// The set terms of each component.
    pub components: Bases,
    /// The basis of each component.
    pub bases: Bases,
}

/// How many nodes a problem has.
#[derive(Clone, Copy, Debug, PartialEq, Eq)]
pub struct Counts {
    pub formulas: u32,
    pub sets: u32,
    pub elements: u32,
    pub components: u32,
}

/// Numbered formulas, set terms and elements, with the formulas that are to be true; seen as the lists that make it.
#[derive(Drop)]
pub struct Problem {
    parts: Parts,
}

impl Model for Problem {
    ghost use Rattle.sc_terms.specs.declared.problem.Parts.{Parts};
    ghost use Rattle.sc_terms.specs.Conditions.{IsProblem};

    ghost Value = { Parts };

    ghost view = { λ p. p.parts };

    ghost invariant = { λ p. IsProblem p.parts };
}

impl Problem {
    /// The problem that these lists make; takes no memory.
    ///
    /// The lists keep these conditions:
    /// - Each number of a formula, set term, element, Int constant or component that stands in them counts from 1 up to the length of its list.
    /// - There are as many assertions as roots, and as many bases as components.
    /// - In each form of an inequality or Int term the atoms ascend, and each coefficient, and an Int term's constant, is below 2^126 in size; no coefficient is 0.
    /// - No node is a part of itself, at any depth. A region's parts are the sets of its component's basis.
    /// - An empty set stands in no component, and each other set term in one, once.
    /// - There are fewer than 2^32 formulas, set terms, elements and components each.
    pub fn from_parts(parts: Parts) -> Problem
        requires { IsProblem parts }
        ensures { result ≡ parts }
    {
        Problem { parts }
    }

    /// The numbers of the formulas that are to be true, in the order of the assertions.
    pub fn roots(&self) -> &[u32]
        ensures roots { result.now ≡ self.now.roots }
        ensures problem { IsProblem self.now }
    {
        self.parts.roots.as_slice()
    }

    /// The assertions' own numbers, in the order of the roots.
    pub fn assertions(&self) -> &[u32]
        ensures { result.now ≡ self.now.assertions }
    {
        self.parts.assertions.as_slice()
    }

    /// The Int constants by their numbers in the problem.
    pub fn ints(&self) -> &[u32]
        ensures { result.now ≡ self.now.ints }
    {
        self.parts.ints.as_slice()
    }

    /// The formula with this number.
    pub fn formula(&self, number: u32) -> &Formula
        requires first { 0 < number }
        requires last { number ≤ length self.now.formulas }
        ensures { formula_at self.now number ≡ Some result.now }
    {
        &self.parts.formulas.as_slice()[number as usize - 1]
    }

    /// The set term with this number.
    pub fn set(&self, number: u32) -> &SetTerm
        requires first { 0 < number }
        requires last { number ≤ length self.now.sets }
        ensures { set_at self.now number ≡ Some result.now }
    {
        &self.parts.sets.as_slice()[number as usize - 1]
    }

    /// The element with this number.
    pub fn element(&self, number: u32) -> &Element
        requires first { 0 < number }
        requires last { number ≤ length self.now.elements }
        ensures { element_at self.now number ≡ Some result.now }
    {
        &self.parts.elements.as_slice()[number as usize - 1]
    }

    /// The formula with this number, or nothing where there is none.
    pub fn find_formula(&self, number: u32) -> Option<&Formula>
        ensures { option_copied result ≡ formula_at self.now number }
    {
        item_at(self.parts.formulas.as_slice(), number)
    }

    /// The set term with this number, or nothing where there is none.
    pub fn find_set(&self, number: u32) -> Option<&SetTerm>
        ensures { option_copied result ≡ set_at self.now number }
    {
        item_at(self.parts.sets.as_slice(), number)
    }

    /// The element with this number, or nothing where there is none.
    pub fn find_element(&self, number: u32) -> Option<&Element>
        ensures { option_copied result ≡ element_at self.now number }
    {
        item_at(self.parts.elements.as_slice(), number)
    }

    /// The component of a set term, or nothing exactly where it is an empty set, which stands in no component.
    #[tactic(auto, using(crate::proofs::Firsts::component_none, crate::proofs::Firsts::component_in, crate::proofs::Firsts::component_found))]
    pub fn component_of(&self, set: u32) -> Option<u32>
        requires first { 0 < set }
        requires last { set ≤ length self.now.sets }
        ensures component { result ≡ component_of self.now set }
        ensures empty { is_none result ≡ is_empty_set (set_at self.now set) }
        ensures found { IfSome result (λ component. is_listed set (sets_of self.now component) ≡ true) }
        ensures range { IfSome result (λ component. IsIn (length self.now.components) component) }
    {
        first_with(self.parts.components.as_slice(), set)
    }

    /// The set terms of a component.
    pub fn component(&self, component: u32) -> &[u32]
        requires first { 0 < component }
        requires last { component ≤ length self.now.components }
        ensures { result.now ≡ sets_of self.now component }
    {
        self.parts.components.as_slice()[component as usize - 1].as_slice()
    }

    /// The basis of a component: some of its set terms, in the order of the signs of its regions' words.
    pub fn basis(&self, component: u32) -> &[u32]
        requires first { 0 < component }
        requires last { component ≤ length self.now.components }
        ensures { result.now ≡ basis_of self.now component }
    {
        self.parts.bases.as_slice()[component as usize - 1].as_slice()
    }

    /// The first element that is the differing element of two set terms, in either order, or nothing where there is none.
    #[tactic(auto, using(crate::proofs::Firsts::diff_in, crate::proofs::Firsts::diff_found, crate::proofs::Firsts::diff_missing))]
    pub fn diff_of(&self, s: u32, t: u32) -> Option<u32>
        ensures diff { result ≡ diff_of self.now s t }
        ensures none { is_none result ≡ not (list_any (is_diff_of s t) self.now.elements) }
        ensures found { IfSome result (λ element. is_diff_at s t (element_at self.now element) ≡ true) }
        ensures range { IfSome result (λ element. IsIn (length self.now.elements) element) }
    {
        first_diff(self.parts.elements.as_slice(), s, t)
    }

    /// Whether an inequality or an Int term has the card of a set term of this component.
    pub fn counted(&self, component: u32) -> bool
        requires first { 0 < component }
        requires last { component ≤ length self.now.components }
        ensures { result ≡ is_counted self.now component }
    {
        let sets = self.component(component);
        some_formula_counts(self.parts.formulas.as_slice(), sets)
            || some_element_counts(self.parts.elements.as_slice(), sets)
    }

    /// Whether there is a component with this number.
    fn is_component(&self, component: u32) -> bool
        ensures { result ≡ is_component self.now component }
    {
        1 <= component && component as usize <= self.parts.components.len()
    }

    /// Whether the cube is a region of the problem: its component is there, its word has a plus, and no more signs than the component's basis has sets.
    pub fn is_region(&self, cube: &Cube) -> bool
        ensures { result ≡ is_region self.now cube.now }
    {
        self.is_component(cube.component)
            && has_plus(cube.signs.as_slice())
            && cube.signs.len() <= self.basis(cube.component).len()
    }

    /// How many nodes there are.
    pub fn counts(&self) -> Counts
        ensures formulas { result.formulas ≡ length self.now.formulas }
        ensures sets { result.sets ≡ length self.now.sets }
        ensures elements { result.elements ≡ length self.now.elements }
        ensures components { result.components ≡ length self.now.components }
    {
        Counts {
            formulas: self.parts.formulas.len() as u32,
            sets: self.parts.sets.len() as u32,
            elements: self.parts.elements.len() as u32,
            components: self.parts.components.len() as u32,
        }
    }
}
