//! The promises of a terminal's line discipline as a module, as laws of its meaning.
ghost use Rattle.strm_module.specs.Calm.{MakesCalm};
ghost use Rattle.strm_module.specs.Kinds.{AnswersStay};
ghost use Rattle.strm_chain_ends.specs.Image.{Image};
ghost use Rattle.strm_chain_ends.specs.Order.{IsOrdered};
ghost use Rattle.strm_chain_settling.specs.Ends.{Ends};
ghost use Rattle.strm_chain_settling.specs.Orderly.{IsOrderly};
ghost use Rattle.port_ldterm_module.specs.Ldterm.{discipline, debt};
ghost use Rattle.port_ldterm_module.specs.LdtermLaws.{LinesAreSent, RawKeysAreSent};
ghost use Rattle.port_ldterm_module.specs.declared.kinds.Discipline.{Discipline};

/// States laws, and does nothing: in whatever order the services of a terminal have their turns, what goes up
/// is the lines that its keys make, and what goes down is what they show. What has not gone yet is kept.
pub fn lines_go_up_and_echo_goes_down()
    ensures lines { LinesAreSent }
    ensures raw { RawKeysAreSent }
{}

/// States a law, and does nothing: a terminal and the built-in kinds make calm messages of a calm message,
/// and their own messages are calm.
pub fn discipline_is_calm()
    ensures { MakesCalm discipline }
{}

/// States a law, and does nothing: the sides on which a kind answers are changed by no message, and by
/// nothing that is sent of its own.
pub fn discipline_answers_stay()
    ensures { AnswersStay discipline }
{}

/// States laws, and does nothing: each sending makes a terminal owe less. So settling ends on each ordered
/// stream: over a line and a wire, and on one end of a loop.
pub fn discipline_settles()
    ensures orderly { IsOrderly discipline debt }
    ensures ends { (image : Image Discipline) → IsOrdered discipline image → Ends discipline image }
{}
