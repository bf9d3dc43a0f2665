//! What writing and reading have to do with each other.

ghost use Rattle.sc_deriv_text.specs.Laws.{ItemsHaveTokens, ReadsExactly, TextsHaveTokens, TextsReadBack, TokensReadBack};

/// A tree is read as a derivation exactly where it is the expression that spells it, and the derivation can be written down.
pub fn derivations_read_exactly()
    ensures { ReadsExactly }
{}

/// The text of a derivation that can be written down has the tokens of the expression that spells it.
pub fn texts_have_tokens()
    ensures { TextsHaveTokens }
{}

/// Whatever tree has the tokens of the text of a derivation that can be written down is read as that derivation: what [`write`](crate::write) prints, [`read`](crate::read) reads back.
pub fn texts_read_back()
    ensures { TextsReadBack }
{}

/// The text of a derivation is its item, up to the last parenthesis, and a line feed. Whatever follows the item of a derivation that can be written down, as in a transcript, it begins with the tokens of the expression that spells it.
pub fn items_have_tokens()
    ensures { ItemsHaveTokens }
{}

/// Whatever tree has the tokens of a text, with any white space and comments, that reads as the tokens of the expression that spells a derivation is read as that derivation.
pub fn tokens_read_back()
    ensures { TokensReadBack }
{}
