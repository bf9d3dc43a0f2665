//! The lines of the items of an input that comes in pieces.

ghost use Rattle.std.specs.Prelude.{◌≡◌, ◌<◌, ◌^◌, [], map, false, None, IfOk};
ghost use Rattle.sc_sexpr.specs.Lines.{Drains, lines_with, joined_pieces};
ghost use Rattle.sc_sexpr.specs.Scans.{items_of};

use crate::item::{Item, Last};
use crate::splitter::{Memory, Splitter};
use std::alloc::Global;

/// Notes the lines of the items that have come whole. The end, where it was found.
fn drain(splitter: &mut Splitter, lines: &mut Vec<u64>) -> Result<Option<Last>, Memory>
    ensures drains { IfOk result (λ end. Drains lines.old.items splitter.old end lines.new.items splitter.new) }
    ensures more { IfOk result (λ end. end ≡ None → splitter.old.last ≡ false) }
    ensures last { splitter.new.last ≡ splitter.old.last }
{
    loop {
        match splitter.next_item() {
            Item::Top { line } => {
                if lines.push(line).is_err() {
                    return Err(Memory);
                }
            }
            Item::More => return Ok(None),
            Item::End => return Ok(Some(Last::End)),
            Item::Bad(fault) => return Ok(Some(Last::Bad(fault))),
        }
    }
}

/// The lines of the items of an input in pieces, of at most so many bytes, and how it ends.
pub(crate) fn lines_of(
    alloc: Global,
    pieces: &[Vec<u8>],
    limit: u64,
) -> Result<(Vec<u64>, Last), Memory>
    requires { limit < 2 ^ 63 }
    // However the input is cut, these are the items of all its bytes.
    ensures { IfOk result (λ found. lines_with [] (items_of limit (joined_pieces (map (λ piece. piece.items) pieces.now)))
        ≡ record { lines = found.0.items; last = found.1 }) }
{
    let mut splitter = Splitter::new(alloc, limit);
    let mut lines = Vec::new(alloc);
    for piece in pieces {
        if splitter.feed(piece.as_slice()).is_err() {
            return Err(Memory);
        }
        match drain(&mut splitter, &mut lines) {
            Err(error) => return Err(error),
            Ok(Some(end)) => return Ok((lines, end)),
            Ok(None) => {}
        }
    }
    splitter.finish();
    match drain(&mut splitter, &mut lines) {
        Err(error) => Err(error),
        Ok(Some(end)) => Ok((lines, end)),
        Ok(None) => unreachable!(),
    }
}
