//! Laws of the definitions.

ghost use Rattle.sc_commands.specs.Laws.{AreByHead, AreNames, AreSpelt, HaveNoOtherParts};

/// Which codes a top item gets by its head: an unknown head comes before a command that is not
/// done, and this before the parts.
pub fn codes_are_by_the_head()
    ensures { AreByHead }
{}

/// What the name of a symbol is: `|a|` and `a` have one name.
pub fn names_stand_between_bars()
    ensures { AreNames }
{}

/// What stands behind the head of each command that is done.
pub fn commands_have_parts()
    ensures { AreSpelt }
{}

/// What is read as a command is the list of the command's name, a bare word, and of the parts that
/// the grammar of SMT-LIB 2.6 puts behind it, with nothing behind them: `(exit 0)` is no command.
/// A name is a simple symbol, which is no reserved word, or what stands between bars.
pub fn commands_have_no_other_parts()
    ensures { HaveNoOtherParts }
{}
