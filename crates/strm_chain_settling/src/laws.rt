//! The laws of settling.
ghost use Rattle.std.specs.Prelude.{ℕ};
ghost use Rattle.strm_msg.specs.declared.words.Side.{Side};
ghost use Rattle.strm_module.specs.Builtin.{builtin};
ghost use Rattle.strm_module.specs.Kinds.{Meaning};
ghost use Rattle.strm_module.specs.declared.kind.Kind.{Kind};
ghost use Rattle.strm_chain_ends.specs.Image.{Image};
ghost use Rattle.strm_chain_ends.specs.Order.{IsOrdered};
ghost use Rattle.strm_chain_settling.specs.Ends.{Ends};
ghost use Rattle.strm_chain_settling.specs.Orderly.{IsOrderly};

/// States a law, and does nothing: with an orderly vocabulary all runs of moves end on an ordered stream.
/// Each stream is ordered.
pub fn settling_ends<K>()
    ensures { (means : Meaning K) (debt : K → Side → ℕ) → IsOrderly means debt → (image : Image K) → IsOrdered means image → Ends means image }
{}

/// States a law, and does nothing: with the built-in kinds all runs of moves end, whatever modules are there
/// and whatever messages wait.
pub fn builtin_settles()
    ensures { (image : Image Kind) → Ends builtin image }
{}
