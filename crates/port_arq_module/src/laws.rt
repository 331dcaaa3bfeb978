//! The promises of a module that is an end of an acknowledged link, as laws of its definitions.
ghost use Rattle.strm_module.specs.Calm.{MakesCalm};
ghost use Rattle.strm_module.specs.Kinds.{AnswersStay};
ghost use Rattle.strm_chain_ends.specs.Image.{Image};
ghost use Rattle.strm_chain_ends.specs.Order.{IsOrdered};
ghost use Rattle.strm_chain_settling.specs.Ends.{Ends};
ghost use Rattle.strm_chain_settling.specs.Orderly.{IsOrderly};
ghost use Rattle.port_arq_module.specs.Arq.{arq};
ghost use Rattle.port_arq_module.specs.BetweenLaws.{ModuleDoesAsItsEnd, ModulesCarryData, debt};
ghost use Rattle.port_arq_module.specs.declared.kinds.ArqKind.{ArqKind};

/// States laws, and does nothing: each act of a module is the act of its end of the link, and what leaves the
/// module is what the end sends and lets go up. A flush, a hangup and other messages that are no data leave
/// the end as it is.
pub fn modules_do_as_their_ends()
    ensures { ModuleDoesAsItsEnd }
{}

/// States the law of the protocol of two modules, and does nothing: over any link that loses, doubles, delays
/// and reorders data, what goes up at one module is a beginning of what the other took from above, in order,
/// once each. Once all is acknowledged, it is all of it.
///
/// It does not say that anything ever arrives.
pub fn modules_carry_data()
    ensures { ModulesCarryData }
{}

/// States a law, and does nothing: the module and the built-in kinds make calm messages of a calm message,
/// and their own messages are calm. A message is calm if it flushes nothing on its way. These messages also
/// set options of a head no more often than the message does.
pub fn arq_is_calm()
    ensures { MakesCalm arq }
{}

/// States a law, and does nothing: the sides on which a kind answers are changed by no message, by no tick,
/// and by nothing that is sent of its own.
pub fn arq_answers_stay()
    ensures { AnswersStay arq }
{}

/// States laws, and does nothing: each frame that is sent makes the frames that a module owes fewer. So
/// settling ends on each ordered stream: over a line and a wire, and on one end of a loop.
pub fn arq_settles()
    ensures orderly { IsOrderly arq debt }
    ensures ends { (image : Image ArqKind) → IsOrdered arq image → Ends arq image }
{}
