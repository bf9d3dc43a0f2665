//! Facts that stand on a path with both signs.

ghost use Rattle.std.specs.Prelude.{◌≡◌, IfOk};
ghost use Rattle.sc_branch.specs.Clashes as spec;
ghost use Rattle.sc_branch.specs.Clashes.{IsClash};

use sc_deriv::clashes;
use sc_facts::{Fact, FactName, Path};
use sc_terms::Memory;

/// The name of a fact that is no row.
pub(crate) fn name_of(fact: &Fact) -> Result<Option<FactName>, Memory>
    ensures { IfOk result (λ name. name ≡ spec.name_of fact.now) }
{
    match fact {
        Fact::Sign(f, _) => Ok(Some(FactName::Sign(*f))),
        Fact::Member(e, s, _) => Ok(Some(FactName::Member(*e, *s))),
        Fact::Eq(e, f, _) => Ok(Some(FactName::Eq(*e, *f))),
        Fact::EqSet(s, t, _) => Ok(Some(FactName::EqSet(*s, *t))),
        Fact::Empty(cube, _) => Ok(Some(FactName::Empty(cube.clone()?))),
        Fact::Row(_) => Ok(None),
    }
}

/// The name, where it clashes on the path.
pub(crate) fn clash_of(path: &Path, name: Option<FactName>) -> Option<FactName>
    ensures { result ≡ spec.clash_of path.now.facts name }
{
    match name {
        Some(name) => {
            if clashes(path, &name) {
                Some(name)
            } else {
                None
            }
        }
        None => None,
    }
}

/// A name that clashes on the path, or nothing exactly where there is none.
pub(crate) fn first_clash(path: &Path) -> Result<Option<FactName>, Memory>
    ensures { IfOk result (IsClash path.now.facts) }
{
    for fact in path.facts() {
        let clash = clash_of(path, name_of(fact)?);
        if clash.is_some() {
            return Ok(clash);
        }
    }
    Ok(None)
}
