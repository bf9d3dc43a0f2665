//! A gate at which workers may be held.

/// A gate at which a worker may be held before it goes on. So far there is one worker, which
/// passes none.
pub trait Gate: Sync {
    /// A worker, counted from 1, stands here with a part of the work that it took, before it goes
    /// on with it; `turn` counts the parts that this worker took, from 1. The call changes nothing
    /// that is solved.
    fn at(&self, worker: u32, turn: u64);
}

/// A gate that holds nobody.
#[derive(Clone, Copy, Debug)]
pub struct OpenGate;

impl Gate for OpenGate {
    fn at(&self, _worker: u32, _turn: u64) {}
}
