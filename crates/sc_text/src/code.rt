//! The codes of errors.

/// The code of an error of a script.
///
/// An error is printed as `(error "line L: Ek text")` and ends the script. The codes and the
/// texts are this program's own; SMT-LIB 2.6 leaves the text of an error free. No error has the
/// code E15. E10 to E13 are of integers, levels and models, of which no command that is done gives
/// any yet.
#[derive(Clone, Copy, PartialEq, Eq)]
pub enum Code {
    /// `lexical fault`: a byte begins no token, or the token begun can't be finished.
    E1,
    /// `unmatched parenthesis`: a closing parenthesis stands at top level.
    E2,
    /// `input ends inside a command`: a list or a quoted token isn't closed at the end of input.
    E3,
    /// `unknown command`: the command's head is no command, nor one that is left out.
    E4,
    /// `malformed command`: a command or a term isn't of its shape.
    E5,
    /// `unknown symbol`: a name or a sort isn't in force.
    E6,
    /// `wrong sort or number of arguments`: of an application, an assertion or a definition's body.
    E7,
    /// `outside the profile`: a command, sort, operator or token that is left out or isn't done.
    E8,
    /// `name already declared or reserved`: in a declaration, a definition or a binding.
    E9,
    /// `number too wide`: a number of a script whose absolute value is 2^126 or more, or a value
    /// past 128 bits.
    E10,
    /// `non-linear product`: more than one factor isn't a constant.
    E11,
    /// `pop below the first level`: more levels were popped than stand.
    E12,
    /// `no model`: the current verdict isn't `sat`.
    E13,
    /// `no proof`: the current verdict isn't `unsat`.
    E14,
    /// `limit N passed`, with the number N of the limit.
    E16(u64),
}
