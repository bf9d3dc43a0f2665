//! Reading a source up to its end.

ghost use Rattle.std.specs.Prelude.{◌≡◌, ◌<◌, false};
ghost use Rattle.sc_input.specs.Gathering.{MoreGives, FillGives, GatherGives};

use sc_io::{Got, Source};
use sc_sexpr::Splitter;

/// How far a source was read.
#[derive(Clone, Copy, Debug, PartialEq, Eq)]
pub enum Reach {
    /// To its end, behind fewer bytes than might be read.
    End,
    /// As many bytes as might be read. There may be more.
    Most,
}

/// Why a source was read no further.
#[derive(Clone, Copy, Debug, PartialEq, Eq)]
pub enum GatherError {
    /// The source failed.
    Failed,
    /// There is no memory for what was read.
    Memory,
}

/// Reads a piece of at most `most` bytes and feeds it. How many bytes there were, or `None` at the
/// end of the source.
fn more<S: Source>(
    source: &mut S,
    splitter: &mut Splitter,
    most: usize,
) -> Result<Option<usize>, GatherError>
    requires some { 0 < most }
    requires unfinished { splitter.old.last ≡ false }
    ensures { MoreGives (S.moment source.old) (S.moment source.new) splitter.old splitter.new most result }
{
    let mut buffer = [0u8; 4096];
    let room = most.min(buffer.len());
    match source.read(&mut buffer[..room]) {
        Got::Bytes(count) => match splitter.feed(&buffer[..count]) {
            Ok(()) => Ok(Some(count)),
            Err(_) => Err(GatherError::Memory),
        },
        Got::End => Ok(None),
        Got::Failed => Err(GatherError::Failed),
    }
}

/// Feeds the source's bytes up to its end, or `most` of them.
fn fill<S: Source>(
    source: &mut S,
    splitter: &mut Splitter,
    most: usize,
) -> Result<Reach, GatherError>
    requires unfinished { splitter.old.last ≡ false }
    ensures { FillGives (S.moment source.old) (S.moment source.new) splitter.old splitter.new most result }
{
    let mut left = most;
    while left > 0 {
        match more(source, splitter, left) {
            Ok(None) => return Ok(Reach::End),
            Ok(Some(count)) => left -= count,
            Err(error) => return Err(error),
        }
    }
    Ok(Reach::Most)
}

/// Feeds the bytes of a source to a splitter that may still be fed, up to the end of the source or
/// `most` bytes of it, and tells the splitter that no more come.
///
/// The source is read in pieces of at most 4,096 bytes, and never beyond `most` bytes: where it has
/// exactly as many, its end isn't looked for. The splitter has the bytes that were read behind those
/// that it had, whatever the pieces.
///
/// # Errors
///
/// [`GatherError::Failed`] where the source failed, behind fewer than `most` bytes;
/// [`GatherError::Memory`] where a piece that was read could not be kept. What the splitter has then
/// is not said.
pub fn gather<S: Source>(
    source: &mut S,
    splitter: &mut Splitter,
    most: usize,
) -> Result<Reach, GatherError>
    requires unfinished { splitter.old.last ≡ false }
    ensures { GatherGives (S.moment source.old) (S.moment source.new) splitter.old splitter.new most result }
{
    let reach = fill(source, splitter, most)?;
    splitter.finish();
    Ok(reach)
}
