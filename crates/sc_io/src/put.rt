//! Writing a whole piece.

ghost use Rattle.sc_io.specs.Writing.{PutGives};

use crate::sink::{Sink, Wrote};
use thiserror::Error;

/// Why a piece was not written whole.
#[derive(Clone, Copy, Debug, PartialEq, Eq, Error)]
pub enum PutError {
    /// The sink answered that it failed.
    #[error("the sink failed")]
    Sink,
    /// The sink answered that it lacks memory.
    #[error("out of memory")]
    Memory,
}

/// Writes the whole piece, or a front of it with an error; an empty piece makes no call.
///
/// It ends at the first call that takes nothing. So `Ok` says that no call failed or wanted memory;
/// [`PutError::Sink`] that the last call failed, and no other, which comes only where the sink's
/// count of faults rose in this call or stands at 2^64 - 1, and never from a sink that never fails;
/// and [`PutError::Memory`] that the last call wanted memory, and no other, which never comes from
/// a sink that never lacks it. With either error some byte of the piece is not written.
pub fn put_all<O: Sink>(out: &mut O, piece: &[u8]) -> Result<(), PutError>
    ensures { PutGives (O.moment out.old) (O.moment out.new) piece.now result }
{
    let mut rest = piece;
    while !rest.is_empty() {
        match out.write(rest) {
            Wrote::Took(count) => rest = &rest[count..],
            Wrote::Failed => return Err(PutError::Sink),
            Wrote::Memory => return Err(PutError::Memory),
        }
    }
    Ok(())
}

#[cfg(test)]
mod tests {
    use super::*;
    use crate::memory_sink::MemorySink;
    use std::test::Fail;

    // A sink that takes one byte a call and fails at call k holds the first k - 1 bytes.
    #[test]
    fn stops_at_the_failing_call(rt: HostRuntime) -> Result<(), Fail> {
        let cases = [
            (1, "", Err(PutError::Sink)),
            (2, "s", Err(PutError::Sink)),
            (3, "sa", Err(PutError::Sink)),
            (4, "sat", Ok(())),
        ];
        for (failing, want, result) in cases {
            let mut out = MemorySink::new(rt.alloc(), vec![in rt.alloc(); failing]?, 1);
            assert_eq!(rt; put_all(&mut out, b"sat"), result, "failing at {failing}");
            assert_eq!(rt; out.bytes(), want.as_bytes(), "failing at {failing}");
        }
        Ok(())
    }
}
