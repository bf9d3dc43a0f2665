//! Tests of reading into a splitter.

use super::*;
use sc_io::MemorySource;
use sc_sexpr::{Item, Splitter};
use std::test::Fail;

/// Of which call fails, how many bytes may be read, and how far the source is read then.
const CASES: [(u64, usize, Result<Reach, GatherError>); 4] = [
    (9, 8, Ok(Reach::End)),
    (9, 7, Ok(Reach::Most)),
    (9, 3, Ok(Reach::Most)),
    (2, 8, Err(GatherError::Failed)),
];

// Seven bytes, at most three a call.
#[test]
fn sources_are_read(rt: HostRuntime) -> Result<(), Fail> {
    for (failing, most, reach) in CASES {
        let bytes = b"(a b) c".to_vec(rt.alloc())?;
        let mut source = MemorySource::new(bytes, vec![in rt.alloc(); failing]?, 3);
        let mut splitter = Splitter::new(rt.alloc(), 100);
        let reached = gather(&mut source, &mut splitter, most);
        assert_eq!(rt; reached, reach, "call {failing}, {most} bytes");
    }
    Ok(())
}

// The splitter gives the item of the bytes that were read, and then their end.
#[test]
fn splitters_have_what_is_read(rt: HostRuntime) -> Result<(), Fail> {
    let bytes = b"\n(a b) c".to_vec(rt.alloc())?;
    let mut source = MemorySource::new(bytes, vec![in rt.alloc()]?, 3);
    let mut splitter = Splitter::new(rt.alloc(), 100);
    assert_eq!(rt; gather(&mut source, &mut splitter, 6), Ok(Reach::Most));
    assert_eq!(rt; splitter.next_item(), Item::Top { line: 2 });
    assert_eq!(rt; splitter.next_item(), Item::End);
    Ok(())
}
