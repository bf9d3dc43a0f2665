//! Where bytes come from and where they go.
//!
//! A [`Source`] gives bytes and a [`Sink`] takes them, a piece at a time. Each counts its faults,
//! and a call answers `Failed` only where that count rose in it or stands at its last value, so
//! that whoever reads or writes can tell from the outside whether a fault was real.
//!
//! [`MemorySource`] and [`MemorySink`] keep their bytes in memory and fail at the calls that they
//! are told to. [`ReaderSource`] and [`WriterSink`] are the edge over std's readers and writers.
//! [`put_all`] writes a whole piece.
//!
//! Contracts see a source or a sink as it stands at a moment. `specs/Reading.antt` and
//! `specs/Writing.antt` say what any number of calls did between two moments, and the lemmas of
//! `proofs/Readings.antt` and `proofs/Writings.antt` chain them.
#![tactic(auto)]

mod edge;
mod memory_sink;
mod memory_source;
mod put;
mod sink;
mod source;

pub use edge::{ReaderSource, WriterSink};
pub use memory_sink::MemorySink;
pub use memory_source::MemorySource;
pub use put::{PutError, put_all};
pub use sink::{Sink, Wrote};
pub use source::{Got, Source};
