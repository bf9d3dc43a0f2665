//! What a path says, beside the path itself.

use crate::said::Said;
use crate::task::Fixed;
use sc_facts::Path;
use sc_terms::Problem;

/// A path of a problem and what was followed up of it.
#[derive(Clone, Copy)]
pub(crate) struct Seen<'a> {
    pub problem: &'a Problem,
    pub fixed: &'a Fixed,
    pub path: &'a Path,
    pub said: &'a Said,
}
