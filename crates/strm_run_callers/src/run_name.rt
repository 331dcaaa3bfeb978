//! The names of runs.
use std::marker::{Brand, PhantomData};
use strm_shared_ring::StreamRunName;

/// The name of a run: the setups of its streams, the scripts of its callers, the feeds of its lines, the links
/// between its wires, and the rings that were made for its streams. Proofs alone speak of it.
///
/// `K` is the kind of the modules.
pub trait RunName<K> {
    ghost use Rattle.std.specs.Prelude.{List};
    ghost use Rattle.strm_shared_ring.specs.Feed.{RingValue};
    ghost use Rattle.strm_run_callers.specs.RunName.{RunValue};

    /// The run.
    ghost run: { RunValue K };

    /// The rings, in order of the streams.
    ghost rings: { List RingValue };
}

/// A run that a proof picks.
impl<K> RunName<K> for Brand {
    ghost use Rattle.std.specs.Prelude.{[]};

    ghost run = { record { setups = []; scripts = []; feeds = []; links = [] } };

    ghost rings = { [] };
}

/// The name of a run's streams: it has the calls of each script for a stream, the feed of its line where no
/// link leads to it, and its ring.
pub struct Of<N>(PhantomData<N>);

impl<K, N: RunName<K>> StreamRunName<K> for Of<N> {
    ghost use Rattle.std.specs.Prelude.{Some};
    ghost use Rattle.strm_run_input.specs.Scripts.{calls_on, script_of};
    ghost use Rattle.strm_run_callers.specs.RunName.{feed_in, ring_of};

    ghost calls = { λ number caller. Some (calls_on number (script_of N.run.scripts caller)) };

    ghost feed = { λ number. feed_in N.run number };

    ghost ring = { λ number. ring_of N.rings number };
}
