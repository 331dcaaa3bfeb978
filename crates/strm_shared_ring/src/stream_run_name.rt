//! The names of runs.
use std::marker::Brand;

/// The name of a run: the calls of its callers on its streams, the feeds of its lines, and the rings for
/// these. Proofs alone speak of it. A program names it by a type, which has no values and costs nothing.
///
/// `K` is the kind of the modules.
pub trait StreamRunName<K> {
    ghost use Rattle.std.specs.Prelude.{ℕ, List, Option};
    ghost use Rattle.strm_msg.specs.Message.{Msg};
    ghost use Rattle.strm_msg.specs.declared.words.End.{End};
    ghost use Rattle.strm_module.specs.declared.shape.Shape.{Shape};
    ghost use Rattle.strm_head_calls.specs.declared.event.Event.{Event};
    ghost use Rattle.strm_shared_ring.specs.Name.{RingName};

    /// Of a stream's number and a caller: the calls that the caller makes there, in order, or none where
    /// it may make any.
    ghost calls: { ℕ → ℕ → Option (List (End × Event (Shape K))) };

    /// Of a stream's number: the messages that its feeder offers, in order, or none where it may offer any.
    ghost feed: { ℕ → Option (List Msg) };

    /// Of a stream's number: the ring through which it is fed, if it is a line.
    ghost ring: { ℕ → Option RingName };
}

/// A run of any calls, on streams that are no lines.
pub struct AnyCalls;

impl<K> StreamRunName<K> for AnyCalls {
    ghost use Rattle.std.specs.Prelude.{None};

    ghost calls = { λ number caller. None };

    ghost feed = { λ number. None };

    ghost ring = { λ number. None };
}

/// A run that a proof picks.
impl<K> StreamRunName<K> for Brand {
    ghost use Rattle.std.specs.Prelude.{None};

    ghost calls = { λ number caller. None };

    ghost feed = { λ number. None };

    ghost ring = { λ number. None };
}
