//! Laws of the definitions.

ghost use Rattle.sc_text.specs.Grammar.{AreQuotations, AreStretches};
ghost use Rattle.sc_text.specs.Laws.{IsSettled};
ghost use Rattle.sc_text.specs.Runs.{ArePassedOver, AreSlices, FirstSplits, ReadsOnce, RunsRead};

/// What a lexer says of the front of a text that may go on holds of every text that begins so.
pub fn fronts_are_settled()
    ensures { IsSettled }
{}

/// Where no quotation and no parenthesis begins, the token is the longest stretch, or there is none.
pub fn tokens_are_stretches()
    ensures { AreStretches }
{}

/// What the tokens are that a parenthesis, a bar or a double quote begins.
pub fn tokens_are_quotations()
    ensures { AreQuotations }
{}

/// White space and comments change no token, and separate those beside them.
pub fn gaps_are_passed_over()
    ensures { ArePassedOver }
{}

/// Each text reads as one list of tokens, each at one place and line, with one ending.
pub fn texts_read_once()
    ensures { ReadsOnce }
{}

/// The tokens that a lexer gives, call by call, are those of its text in order; where it gives no
/// further one they are all of them.
pub fn runs_read_texts()
    ensures { RunsRead }
{}

/// Each token that a lexer gives is the slice of its text at the token's place, its line is the
/// text's line and the line feeds before it, and each begins at or behind the end of the one
/// before it.
pub fn tokens_are_slices()
    ensures { AreSlices }
{}

/// A text is white space and comments, its first token, and the rest, which is read next.
pub fn tokens_split_texts()
    ensures { FirstSplits }
{}
