//! The set operators as one: the sign of an element at a term of two sets is borne out by one of the two.

use sc_terms::{Problem, SetTerm};

/// That an element is in a set term, or that it is not.
#[derive(Clone, Copy)]
pub(crate) struct Place {
    pub set: u32,
    pub inside: bool,
}

/// A term of two sets: the whole holds exactly where the first or the second does.
#[derive(Clone, Copy)]
pub(crate) struct Join {
    pub whole: Place,
    pub first: Place,
    pub second: Place,
}

/// The term with these signs.
fn signed(set: u32, first: u32, second: u32, signs: (bool, bool, bool)) -> Join {
    Join {
        whole: Place {
            set,
            inside: signs.0,
        },
        first: Place {
            set: first,
            inside: signs.1,
        },
        second: Place {
            set: second,
            inside: signs.2,
        },
    }
}

/// How a set term comes from two others, or nothing where it does not: an element is in a union where it is in one of the sets, outside an intersection where it is outside one of them, and outside a difference where it is outside the first or in the second.
pub(crate) fn join_of(problem: &Problem, set: u32) -> Option<Join> {
    match problem.find_set(set)? {
        SetTerm::Union(a, b) => Some(signed(set, *a, *b, (true, true, true))),
        SetTerm::Inter(a, b) => Some(signed(set, *a, *b, (false, false, false))),
        SetTerm::Minus(a, b) => Some(signed(set, *a, *b, (false, false, true))),
        _ => None,
    }
}
