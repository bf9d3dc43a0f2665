//! What the constants of a script stand for.

ghost use Rattle.std.specs.Prelude.{◌≡◌, [], IfOk, OnOk, OnErr};
ghost use Rattle.std.specs.Option.{option_copied};
ghost use Rattle.std.specs.FinMap as map;
ghost use Rattle.sc_base.specs.Spans.{AreApart};
ghost use Rattle.sc_terms.specs.Meaning.{IsInterpretation};
ghost use Rattle.sc_terms.specs.Values.{IsProper, interpretation_of};

use crate::memory::Memory;
use sc_base::Span;
use std::alloc::Global;
use std::collections::BTreeMap;
use std::marker::Model;

/// A finite set of integers, seen as its longest stretches of neighbouring integers, in ascending order.
#[derive(Drop)]
pub struct Members {
    spans: Vec<Span>,
}

impl Model for Members {
    ghost use Rattle.std.specs.Prelude.{List};
    ghost use Rattle.sc_base.specs.declared.span.Span.{Span};
    ghost use Rattle.sc_base.specs.Spans.{AreApart};

    ghost Value = { List Span };

    ghost view = { λ m. m.spans.items };

    ghost invariant = { λ m. AreApart m.spans.items };
}

impl Members {
    /// The empty set.
    pub fn none(alloc: Global) -> Members
        ensures { result ≡ [] }
    {
        Members {
            spans: Vec::new(alloc),
        }
    }

    /// The set of these spans, which ascend and neither overlap nor touch; takes no memory.
    pub fn from_spans(spans: Vec<Span>) -> Members
        requires { AreApart spans.items }
        ensures { result ≡ spans.items }
    {
        Members { spans }
    }

    /// The spans in ascending order.
    pub fn spans(&self) -> &[Span]
        ensures spans { result.now ≡ self.now }
        ensures apart { AreApart self.now }
    {
        self.spans.as_slice()
    }
}

/// What one constant stands for. An element of a declared sort is an integer too.
#[derive(Drop)]
pub enum Value {
    /// A truth value.
    Flag(bool),
    /// An integer, or an element of a declared sort.
    Number(i128),
    /// A finite set.
    Set(Members),
}

impl Value {
    /// A set's spans are in order and apart.
    fn keeps_order(&self)
        ensures { IsProper self.now }
    {
        if let Value::Set(members) = self {
            let _spans = members.spans();
        }
    }
}

/// Values of constants, seen as a finite map from the constants' numbers. A constant without a value, or with one of another kind than its sort, counts as false, 0 or the empty set.
#[derive(Drop)]
pub struct Interp {
    values: BTreeMap<u32, Value>,
}

impl Model for Interp {
    ghost use Rattle.std.specs.Prelude.{ℕ, List};
    ghost use Rattle.std.specs.Ordering.{nat_cmp};
    ghost use Rattle.std.specs.Coded.{coded_ℕ};
    ghost use Rattle.std.specs.FinMap as map;
    ghost use Rattle.sc_terms.specs.Values.{ValueMap, coded_value, AreProper};

    ghost Value = { ValueMap };

    ghost coded = { map.code coded_ℕ coded_value };

    ghost view = { λ i. map.from_entries i.values.entries };

    ghost invariant = { λ i. AreProper i.values.entries };
}

impl Interp {
    /// Gives no constant a value.
    pub fn new(alloc: Global) -> Interp
        ensures { result ≡ map.empty }
    {
        Interp {
            values: BTreeMap::new(alloc),
        }
    }

    /// Gives a constant a value, in place of the one that it had. Where memory is refused nothing changes.
    pub fn put(&mut self, constant: u32, value: Value) -> Result<(), Memory>
        ensures ok { OnOk result (self.new ≡ map.insert self.old constant value) }
        ensures err { OnErr result (self.new ≡ self.old) }
    {
        value.keeps_order();
        self.values.insert(constant, value)?;
        Ok(())
    }

    /// The value of a constant, or nothing exactly where it has none.
    pub fn get(&self, constant: u32) -> Option<&Value>
        ensures { option_copied result ≡ map.get self.now constant }
    {
        self.values.get(&constant)
    }

    /// The values are an interpretation: no set has an integer twice.
    pub fn interprets(&self)
        ensures { IsInterpretation (interpretation_of self.now) }
    {
        let _values = &self.values;
    }
}
