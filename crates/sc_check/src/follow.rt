//! Following a script without solving.

ghost use Rattle.std.specs.Prelude.{◌≡◌, true};
ghost use Rattle.sc_session.specs.Scripts.{most_bytes};
ghost use Rattle.sc_session.specs.States.{start};
ghost use Rattle.sc_check.specs.Following.{FollowGives};

use sc_base::Sequence;
use sc_session::{Session, Traced, fault_line, traces_keep_formulas};
use sc_sexpr::{Item, Splitter};
use sc_terms::{Memory, Numbers};
use std::alloc::Global;

/// The assertions for which each `get-proof` of a script asks, in order.
pub(crate) type Asked = Sequence<Numbers>;

/// How a script ends.
#[derive(Drop)]
pub(crate) enum Followed {
    /// With `(exit)`.
    Exited(Asked),
    /// With an error, whose line these bytes are.
    Stopped(Sequence<u8>),
    /// With the end of the input.
    Unended,
}

/// Does the commands of a script up to its end, the first error or `(exit)`.
pub(crate) fn follow(
    alloc: Global,
    splitter: &mut Splitter,
    session: &mut Session,
) -> Result<Followed, Memory>
    requires finished { splitter.old.last ≡ true }
    requires granted { splitter.old.granted ≡ most_bytes }
    requires fresh { session.old ≡ start }
    ensures { FollowGives splitter.old result splitter.new session.new }
{
    traces_keep_formulas();
    let mut asked = Asked::new(alloc);
    loop {
        match splitter.next_item() {
            Item::Top { line } => match session.trace_item(splitter.item(), line) {
                Ok(Traced::Nothing) => {}
                Ok(Traced::Proof(assertions)) => {
                    if asked.push(assertions).is_err() {
                        return Err(Memory);
                    }
                }
                Ok(Traced::Error(bytes)) => return Ok(Followed::Stopped(bytes)),
                Ok(Traced::Exit) => return Ok(Followed::Exited(asked)),
                Err(Memory) => return Err(Memory),
            },
            Item::End => return Ok(Followed::Unended),
            Item::Bad(fault) => return Ok(Followed::Stopped(fault_line(alloc, fault)?)),
            Item::More => unreachable!(),
        }
    }
}
