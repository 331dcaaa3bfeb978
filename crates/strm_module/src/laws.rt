//! Promises that hold of all built-in kinds, as a law of their definition.
ghost use Rattle.strm_module.specs.Calm.{IsCalm};
ghost use Rattle.strm_module.specs.Builtin.{builtin};
ghost use Rattle.strm_module.specs.Kinds.{AnswersStay};

/// A law, for which nothing is done: the built-in kinds make calm messages of a calm message. A message is
/// calm if it flushes nothing on its way. All are but a flush, and an error, which a head answers with a
/// flush. These messages also set options of a head no more often than the message does. The turn of their
/// services never changes.
pub fn builtin_are_calm()
    ensures { IsCalm builtin }
{}

/// A law, for which nothing is done: no message, and nothing that it sends of its own, changes on which sides
/// a built-in kind answers. So a push that is not refused keeps messages from going round a circle for as
/// long as its module is there.
pub fn builtin_answers_stay()
    ensures { AnswersStay builtin }
{}
