//! Items and faults.

ghost use Rattle.std.specs.Prelude.{◌≡◌};
ghost use Rattle.sc_sexpr.specs.View.{item_of};

/// Why an input isn't a sequence of items, with the line of the fault. Lines are counted from 1 by
/// line feeds.
#[derive(Clone, Copy, Debug, PartialEq, Eq)]
pub enum Fault {
    /// Bytes that are no token: none begins so, or the one begun can't be finished. The line is
    /// that of the first of them.
    Lexical { line: u64 },
    /// A closing parenthesis outside of every list, and its line.
    Unmatched { line: u64 },
    /// A list or a quoted token isn't closed at the end of the input. The line is that of the first
    /// token of its item.
    Unclosed { line: u64 },
    /// The 1,001st open parenthesis, with its line and the number 1,000; or a byte past the limit
    /// of bytes, which is the number, with the line of the first token of the item in which the
    /// byte stands, or the byte's own line where it stands in none. A whole item that ends before
    /// this byte is given first.
    Limit { line: u64, number: u64 },
}

/// What comes next in an input.
#[derive(Clone, Copy, Debug, PartialEq, Eq)]
pub enum Item {
    /// A top item, with the line of its first token.
    Top { line: u64 },
    /// The bytes that have come hold no further whole item and no fault, and more may come.
    More,
    /// The end of the input, behind its last item. It stays.
    End,
    /// A fault. It stays.
    Bad(Fault),
}

/// How an input ends.
#[derive(Clone, Copy, Debug, PartialEq, Eq)]
pub(crate) enum Last {
    /// Behind its last item.
    End,
    /// With a fault.
    Bad(Fault),
}

impl Last {
    /// The answer that tells it.
    pub(crate) fn item(self) -> Item
        ensures { result ≡ item_of self }
    {
        match self {
            Last::End => Item::End,
            Last::Bad(fault) => Item::Bad(fault),
        }
    }
}
