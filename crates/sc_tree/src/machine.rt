//! What seats ask of the tree, what it answers, and what it keeps.

ghost use Rattle.std.specs.Prelude.{◌≡◌};
ghost use Rattle.sc_tree.specs.Machine.{entry};
ghost use Rattle.sc_tree.specs.Keeping.{new_place};

use sc_base::Sequence;
use sc_deriv::{Closing, Step, Steps};
use sc_facts::{Note, Path};
use sc_terms::Interp;
use std::alloc::Global;
use std::marker::Model;
use std::snapshot::Snapshot;

/// Steps of one branch each, in order.
pub type Chain = Sequence<Step>;

/// Why a leaf is given up.
#[derive(Drop)]
pub enum Cause {
    /// Its path has as many steps as the budget allows.
    Budget,
    /// What the note names on its path is a number past 128 bits.
    Wide(Note),
}

/// A cause as contracts see it. It takes no memory: what the program reads of the cause stands in the journal.
#[derive(Drop)]
pub struct SeenCause {
    cause: Snapshot<Cause>,
}

impl Model for SeenCause {
    ghost use Rattle.sc_tree.specs.declared.machine.Cause.{Cause};

    ghost Value = { Cause };

    ghost view = { λ s. s.cause.value };
}

impl SeenCause {
    pub(crate) fn of(cause: &Cause) -> SeenCause
        ensures { result ≡ cause.now }
    {
        SeenCause {
            cause: Snapshot::of(cause),
        }
    }
}

/// What a seat asks of the tree.
#[derive(Drop)]
pub enum Event {
    /// A leaf that is open is to be handed out.
    Take,
    /// The path of the seat's leaf goes on with these steps.
    Grow(Chain),
    /// The seat's leaf is split by a step with two branches, and the seat holds neither.
    Split(Step),
    /// The seat's leaf is closed.
    Close(Closing),
    /// The seat's leaf is given up.
    Spend(Cause),
    /// The seat has found values that make the roots true.
    Found(Interp),
}

/// What the tree answers.
#[derive(Drop)]
pub enum Reply {
    /// The seat holds the leaf with this number, which has this path, to which these steps lead from the root path.
    Leaf { leaf: u64, path: Path, steps: Steps },
    /// What was asked is done.
    Done,
    /// No leaf is open, and some are held.
    Idle,
    /// The tree has its answer, and the seat holds nothing.
    Over,
}

/// What became of a leaf.
#[derive(Drop)]
pub enum Mark {
    /// Anyone may take it.
    Open,
    /// The seat with this number holds it.
    Held(u32),
    /// This closes it.
    Closed(Closing),
    /// It was given up for this cause.
    Spent(SeenCause),
    /// This step has split it into the leaf with this number and the leaf with the next.
    Parted(Step, u64),
}

/// A leaf, or what was one before it was split.
#[derive(Drop)]
pub struct Place {
    /// The number of the leaf by whose split it came, or 0 for the root's.
    pub parent: u64,
    /// Which branch of that split it is, counted from 1, or 0 for the root's.
    pub branch: u32,
    /// The steps taken at it.
    pub chain: Chain,
    pub mark: Mark,
}

impl Place {
    /// A leaf that was just made, by the split of another.
    pub(crate) fn new(alloc: Global, parent: u64, branch: u32) -> Place
        ensures { result ≡ new_place parent branch }
    {
        Place {
            parent,
            branch,
            chain: Chain::new(alloc),
            mark: Mark::Open,
        }
    }
}

/// A step of the machine: who asked for what, at which leaf (0 for none), and whether the answer was that all is over.
#[derive(Drop)]
pub struct Entry {
    pub seat: u32,
    pub leaf: u64,
    pub event: Event,
    pub over: bool,
}

impl Entry {
    pub(crate) fn new(seat: u32, leaf: u64, event: Event, over: bool) -> Entry
        ensures { result ≡ entry seat leaf event over }
    {
        Entry {
            seat,
            leaf,
            event,
            over,
        }
    }
}
