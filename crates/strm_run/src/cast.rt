//! A run before its first call.
ghost use Rattle.std.specs.Prelude.{◌≡◌, length, IfOk};
ghost use Rattle.strm_run_callers.specs.Dealing.{callers_of};
ghost use Rattle.strm_run.specs.Inside.Opening.{IsInput};

use crate::feeds::{feedings, feeds_of, joints, unfed};
use crate::opening::open;
use crate::table::transposed;
use std::alloc::Global;
use strm_module::{BoxedModule, ModuleOf};
use strm_msg::NoMem;
use strm_run_callers::{Feeding, Player, RunName, Streams, seated};
use strm_run_input::{Feed, RunLink, Script};
use strm_shared::Ring;
use strm_shared_log::Setup;

/// The streams, the callers and the feeders of a run.
#[derive(Drop)]
pub(crate) struct Cast<M: ModuleOf, N: RunName<M::Kind>> {
    /// The streams, in order.
    pub(crate) streams: Streams<M, N>,
    /// The callers, in order. None has made a call.
    pub(crate) players: Vec<Player<M, N>>,
    /// The feeders, in order of their streams. None has offered a message.
    pub(crate) feedings: Vec<Feeding<M::Kind, N>>,
}

/// The cast of a run of which all is there. Fails only when memory runs out.
pub(crate) fn open_run<M: ModuleOf, N: RunName<M::Kind>>(
    alloc: Global,
    setups: Vec<Setup>,
    scripts: Vec<Script<BoxedModule<M>>>,
    feeds: Vec<Feed>,
    links: Vec<RunLink>,
    rings: Vec<Ring>,
) -> Result<Cast<M, N>, NoMem>
    requires { IsInput N.run N.rings setups.items scripts.items feeds.items links.items rings.items }
    ensures { IfOk result (λ cast. cast.players.items ≡ callers_of (length scripts.items)) }
{
    let many = setups.len();
    let callers = scripts.len();
    let (all, seats, mut feeders) = open(alloc, rings, callers as u32)?;
    let joints = joints(alloc, &mut feeders, links)?;
    let seats = transposed(alloc, seats, callers)?;
    let feeds = feeds_of(alloc, feeds, many)?;
    let streams = Streams::new(all, unfed(alloc, feeds.as_slice())?);
    let feedings = feedings(alloc, feeders, feeds)?;
    let players = seated(alloc, scripts, seats, joints)?;
    Ok(Cast {
        streams,
        players,
        feedings,
    })
}
