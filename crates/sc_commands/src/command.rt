//! Commands.

use sc_sexpr::{Items, Tree};

/// A command of a script, as SMT-LIB 2.6 spells it.
///
/// A name is given without the bars of a quoted symbol, so a reserved word comes only from one
/// between bars. A numeral is given by its digits, and a literal with its quotes.
#[derive(Drop)]
pub enum Command<'a> {
    /// `(set-logic s)`, with any symbol.
    SetLogic,
    /// `(set-info k v)`, with any keyword and any value.
    SetInfo,
    /// `(declare-sort name arity)`.
    DeclareSort {
        /// The sort's name.
        name: &'a [u8],
        /// The digits of how many sorts it takes.
        arity: &'a [u8],
    },
    /// `(declare-const name sort)`.
    DeclareConst {
        /// The constant's name.
        name: &'a [u8],
        /// Its sort, a symbol or a list.
        sort: Tree<'a>,
    },
    /// `(declare-fun name arguments result)`.
    DeclareFun {
        /// The function's name.
        name: &'a [u8],
        /// The sorts of its arguments, each a symbol or a list.
        arguments: Items<'a>,
        /// The sort of its values, a symbol or a list.
        result: Tree<'a>,
    },
    /// `(assert term)`.
    Assert {
        /// Any tree.
        term: Tree<'a>,
    },
    /// `(check-sat)`.
    CheckSat,
    /// `(get-proof)`.
    GetProof,
    /// `(echo literal)`.
    Echo {
        /// The string literal, as written.
        literal: &'a [u8],
    },
    /// `(exit)`.
    Exit,
}
