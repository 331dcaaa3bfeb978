//! Laws of flow control for the built-in kinds.
ghost use Rattle.strm_module.specs.Builtin.{builtin, builtin_acts, builtin_answers};
ghost use Rattle.strm_chain_ends.specs.Serving.{ServesWhatWaits, TicksChangeNothing};

/// A law, for which nothing is done: with the built-in kinds a place may move, and must, by its first message
/// and the queue ahead alone.
pub fn builtin_serve_what_waits()
    ensures { ServesWhatWaits builtin_acts builtin_answers }
{}

/// A law, for which nothing is done: the built-in kinds ask for no ticks, and so a tick changes nothing of a
/// stream that has no others.
pub fn builtin_ask_for_no_ticks()
    ensures { TicksChangeNothing builtin }
{}
