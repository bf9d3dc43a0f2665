//! Laws of the definitions.

ghost use Rattle.sc_sexpr.specs.Given.{HaveAllTokens};
ghost use Rattle.sc_sexpr.specs.Laws.{IsReader, AreItems, AreCut};
ghost use Rattle.sc_sexpr.specs.Trees.{AreTold};
ghost use Rattle.sc_sexpr.specs.Walk.{AreWalked};

/// The answers of a splitter are the items of all the bytes, in whatever pieces they come.
pub fn splitters_read()
    ensures { IsReader }
{}

/// What a splitter gives is an item for `read_tree`.
pub fn splitters_give_items()
    ensures { AreItems }
{}

/// A text has one tree: its tokens determine it, but for where they lie in memory.
pub fn trees_are_told()
    ensures { AreTold }
{}

/// The items of a text are those that its tokens make, with nothing but white space and comments
/// between them, and it ends with the first fault of its tokens: one that is broken, a closing
/// parenthesis outside of every list, the 1,001st open one, a list or quoted token that is open at
/// the end, or the first byte past the limit.
pub fn items_are_walked()
    ensures { AreWalked }
{}

/// Where a text is longer than its limit, its items and its end are the same whatever follows it.
pub fn long_texts_are_cut()
    ensures { AreCut }
{}

/// The items of a text without a fault have all of its tokens: those of the items, one after the
/// other, are those of the text. What a splitter that stands between items gives to the end has, in
/// the same way, all tokens of the bytes that it had not read.
pub fn items_have_all_tokens()
    ensures { HaveAllTokens }
{}
