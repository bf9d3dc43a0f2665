//! The names that a script may not give.
//!
//! All names are given without the bars of a quoted symbol: `|a|` and `a` are the same symbol.

ghost use Rattle.std.specs.Prelude.{◌≡◌};
ghost use Rattle.std.specs.List.{list_any};
ghost use Rattle.std.specs.Str.{bytes_eq};
ghost use Rattle.sc_text.specs.Names.{is_command, is_left_out_command, is_reserved, is_operator, is_left_out_operator, is_built_in, is_own, is_free, is_free_in_bars};

/// The reserved words that are no commands.
const GENERAL_WORDS: [&str; 13] = [
    "!",
    "_",
    "as",
    "BINARY",
    "DECIMAL",
    "exists",
    "HEXADECIMAL",
    "forall",
    "let",
    "match",
    "NUMERAL",
    "par",
    "STRING",
];

/// The commands of the language of scripts.
const COMMANDS: [&str; 21] = [
    "set-logic",
    "set-info",
    "set-option",
    "get-option",
    "get-info",
    "declare-sort",
    "declare-const",
    "declare-fun",
    "define-fun",
    "assert",
    "push",
    "pop",
    "check-sat",
    "check-sat-assuming",
    "get-model",
    "get-value",
    "get-proof",
    "echo",
    "reset-assertions",
    "reset",
    "exit",
];

/// The commands that are left out.
const LEFT_OUT_COMMANDS: [&str; 9] = [
    "define-sort",
    "define-fun-rec",
    "define-funs-rec",
    "declare-datatype",
    "declare-datatypes",
    "get-assertions",
    "get-assignment",
    "get-unsat-assumptions",
    "get-unsat-core",
];

/// The built-in sorts and the Boolean values.
const SORTS_AND_VALUES: [&str; 5] = ["Bool", "Int", "Set", "true", "false"];

/// The operators.
const OPERATORS: [&str; 24] = [
    "not",
    "and",
    "or",
    "=>",
    "xor",
    "=",
    "distinct",
    "ite",
    "<=",
    "<",
    ">=",
    ">",
    "+",
    "-",
    "*",
    "set.card",
    "set.member",
    "set.subset",
    "set.singleton",
    "set.union",
    "set.inter",
    "set.minus",
    "set.insert",
    "set.empty",
];

/// The operators that are left out.
const LEFT_OUT_OPERATORS: [&str; 13] = [
    "set.universe",
    "set.complement",
    "set.choose",
    "set.is_empty",
    "set.is_singleton",
    "set.comprehension",
    "set.filter",
    "set.map",
    "set.fold",
    "div",
    "mod",
    "abs",
    "divisible",
];

fn is_word(name: &[u8], word: &str) -> bool
    ensures { result ≡ bytes_eq word.now name.now }
{
    word.as_bytes() == name
}

fn is_among(name: &[u8], words: &[&str]) -> bool
    ensures { result ≡ list_any (λ w. bytes_eq w.now name.now) words.now }
{
    words.iter().any(|word| is_word(name, word))
}

/// Whether the word names a command of the language of scripts. Not each of them is done: one that
/// isn't is refused with [`Code::E8`](crate::Code::E8) where it is read.
pub fn is_command(word: &[u8]) -> bool
    ensures { result ≡ is_command word.now }
{
    is_among(word, &COMMANDS)
}

/// Whether the word names a command of SMT-LIB 2.6 that is left out.
pub fn is_left_out_command(word: &[u8]) -> bool
    ensures { result ≡ is_left_out_command word.now }
{
    is_among(word, &LEFT_OUT_COMMANDS)
}

/// Whether the word is reserved: a general reserved word of SMT-LIB 2.6, or the name of a
/// command. A reserved word is a symbol only where it stands between bars.
#[tactic(auto, unfolding(crate::specs::Names::is_reserved))]
pub fn is_reserved(word: &[u8]) -> bool
    ensures { result ≡ is_reserved word.now }
{
    is_among(word, &GENERAL_WORDS) || is_command(word) || is_left_out_command(word)
}

/// Whether the name is that of an operator of terms.
pub fn is_operator(name: &[u8]) -> bool
    ensures { result ≡ is_operator name.now }
{
    is_among(name, &OPERATORS)
}

/// Whether the name is that of an operator that is left out: those on sets are of cvc5's theory
/// of finite sets, the others of SMT-LIB's theory of integers.
pub fn is_left_out_operator(name: &[u8]) -> bool
    ensures { result ≡ is_left_out_operator name.now }
{
    is_among(name, &LEFT_OUT_OPERATORS)
}

/// Whether the name has a meaning that no script may change: `Bool`, `Int`, `Set`, `true`,
/// `false`, an operator, or an operator that is left out.
#[tactic(auto, unfolding(crate::specs::Names::is_built_in))]
pub fn is_built_in(name: &[u8]) -> bool
    ensures { result ≡ is_built_in name.now }
{
    is_among(name, &SORTS_AND_VALUES) || is_operator(name) || is_left_out_operator(name)
}

/// Whether the name begins with `@` or `.`: SMT-LIB 2.6 keeps these for solvers.
pub fn is_own(name: &[u8]) -> bool
    ensures { result ≡ is_own name.now }
{
    matches!(name, [b'@' | b'.', ..])
}

/// Whether a script may declare, define or bind this name where it stands between bars: it is
/// neither built in nor a solver's own. A reserved word is free there.
#[tactic(auto, unfolding(crate::specs::Names::is_free_in_bars))]
pub fn is_free_in_bars(name: &[u8]) -> bool
    ensures { result ≡ is_free_in_bars name.now }
{
    !is_own(name) && !is_built_in(name)
}

/// Whether a script may declare, define or bind this name where it stands without bars: it is
/// neither reserved nor built in nor a solver's own.
#[tactic(auto, unfolding(crate::specs::Names::is_free))]
pub fn is_free(name: &[u8]) -> bool
    ensures { result ≡ is_free name.now }
{
    !is_reserved(name) && is_free_in_bars(name)
}
