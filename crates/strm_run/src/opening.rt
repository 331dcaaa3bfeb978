//! The streams of a run, as they are made.
ghost use Rattle.std.specs.Prelude.{◌≡◌, ◌<◌, ◌^◌, ◌∷◌, ◌++◌, [], true, length, map, All, IfOk, IsOk, OnOk};
ghost use Rattle.strm_head_calls.specs.Setup.{is_fit, is_ring};
ghost use Rattle.strm_run.specs.Inside.Opening.{AreOpened};

use std::alloc::Global;
use strm_module::ModuleOf;
use strm_msg::NoMem;
use strm_run_callers::{Of, RunName};
use strm_shared::{Feeder, Ring, Seat, Shared};
use strm_shared_log::Setup;

/// A ring for each stream, in order of the setups. Fails only when memory runs out.
pub(crate) fn rings_of(alloc: Global, setups: &[Setup]) -> Result<Vec<Ring>, NoMem>
    requires { All (λ setup. is_ring setup ≡ true) setups.now }
    ensures { IfOk result (λ rings. map (λ ring. ring.setup) rings.items ≡ setups.now) }
{
    let mut rings = Vec::new(alloc);
    for setup in setups {
        let Ok(ring) = Ring::new(alloc, *setup) else {
            return Err(NoMem);
        };
        rings.push(ring)?;
    }
    Ok(rings)
}

/// Adds one stream more that was made, with its seats, and its feeder if it has one: each of these has a
/// list. Fails only when memory runs out.
fn keep<S: Drop, T: Drop, F: Drop, E: Drop>(
    streams: &mut Vec<S>,
    seats: &mut Vec<T>,
    feeders: &mut Vec<F>,
    made: Result<(S, T, F), E>,
) -> Result<(), NoMem>
    ensures streams { OnOk result (IfOk made (λ one. streams.new.items ≡ streams.old.items ++ one.0 ∷ [])) }
    ensures seats { OnOk result (IfOk made (λ one. seats.new.items ≡ seats.old.items ++ one.1 ∷ [])) }
    ensures feeders { OnOk result (IfOk made (λ one. feeders.new.items ≡ feeders.old.items ++ one.2 ∷ [])) }
    ensures made { OnOk result (IsOk made) }
{
    let Ok((shared, mine, feeder)) = made else {
        return Err(NoMem);
    };
    streams.push(shared)?;
    seats.push(mine)?;
    feeders.push(feeder)?;
    Ok(())
}

/// A stream for each ring, numbered from 0, with a seat for each caller, and a feeder for each line.
/// Fails only when memory runs out.
pub(crate) fn open<M: ModuleOf, N: RunName<M::Kind>>(
    alloc: Global,
    rings: Vec<Ring>,
    callers: u32,
) -> Result<
    (
        Vec<Shared<M, Of<N>>>,
        Vec<Vec<Seat>>,
        Vec<Option<Feeder<M::Kind, Of<N>>>>,
    ),
    NoMem,
>
    requires rings { N.rings ≡ rings.items }
    requires setups { map (λ ring. ring.setup) rings.items ≡ N.run.setups }
    requires callers { length N.run.scripts ≡ callers }
    requires few { length N.run.setups < 2 ^ 32 }
    requires marks { All (λ setup. is_fit setup ≡ true) N.run.setups }
    ensures { IfOk result (λ all. AreOpened N.run all.0.items all.1.items all.2.items) }
{
    let mut streams = Vec::new(alloc);
    let mut seats = Vec::new(alloc);
    let mut feeders = Vec::new(alloc);
    let mut number: u32 = 0;
    for ring in rings {
        keep(
            &mut streams,
            &mut seats,
            &mut feeders,
            Shared::new(alloc, number, callers, ring),
        )?;
        number += 1;
    }
    Ok((streams, seats, feeders))
}
