//! What is printed can be read back.

ghost use Rattle.sc_print.specs.Readback.{ErrorsReadBack, NumbersReadBack, SymbolsReadBack, ValuesDiffer, ValuesReadBack};

/// A printed symbol is one token, a word that isn't reserved or a quoted symbol, and its name is
/// the one that was printed; for names without bars and backslashes, which no symbol of SMT-LIB
/// 2.6 holds, and where no byte of a symbol follows.
pub fn symbols_read_back()
    ensures { SymbolsReadBack }
{}

/// A printed number is a numeral, or a minus and a numeral between parentheses, of just this value.
pub fn numbers_read_back()
    ensures { NumbersReadBack }
{}

/// A printed value of a declared sort is a list of `as`, the symbol of the value and the symbol of
/// the sort.
pub fn values_read_back()
    ensures { ValuesReadBack }
{}

/// Different values, of one sort or of two, have different symbols.
pub fn values_differ()
    ensures { ValuesDiffer }
{}

/// A printed error is a list of `error` and one string literal, the error's text, and then a line
/// feed.
pub fn errors_read_back()
    ensures { ErrorsReadBack }
{}
