//! What is timed.

ghost use Rattle.std.specs.Prelude.{◌≡◌};

use sc_sexpr::{Item, Memory, Splitter};
use sc_text::{Lexer, Next};
use std::alloc::Global;

/// How many bytes are fed at once.
const PIECE: usize = 65_536;

/// The most bytes that are split.
const LIMIT: u64 = 1 << 40;

/// How many of the items that the fed bytes hold come next, and whether a fault stands behind them.
fn next_items(splitter: &mut Splitter) -> (u64, bool)
    ensures { splitter.new.last ≡ splitter.old.last }
{
    for count in 0..u64::MAX {
        match splitter.next_item() {
            Item::Top { .. } => {}
            Item::More | Item::End => return (count, false),
            Item::Bad(_) => return (count, true),
        }
    }
    (u64::MAX, false)
}

/// How many top items a text has before its end or its first fault.
pub fn items(alloc: Global, text: &[u8]) -> Result<u64, Memory> {
    let mut splitter = Splitter::new(alloc, LIMIT);
    let mut count: u64 = 0;
    for piece in text.chunks(PIECE) {
        splitter.feed(piece)?;
        let (more, is_bad) = next_items(&mut splitter);
        count = count.saturating_add(more);
        if is_bad {
            return Ok(count);
        }
    }
    splitter.finish();
    let (more, _) = next_items(&mut splitter);
    Ok(count.saturating_add(more))
}

/// How many tokens a text has before its end or its first fault.
pub fn tokens(text: &[u8]) -> u64 {
    let mut lexer = Lexer::over(text, 0, 1, true);
    for count in 0..u64::MAX {
        match lexer.next() {
            Next::Token(_) => {}
            _ => return count,
        }
    }
    u64::MAX
}
