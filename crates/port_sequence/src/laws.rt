//! The promises of the discipline, as laws of its meaning.
ghost use Rattle.strm_module.specs.Calm.{IsCalm};
ghost use Rattle.strm_module.specs.Kinds.{AnswersStay};
ghost use Rattle.port_sequence.specs.Sequence.{sequence};
ghost use Rattle.port_sequence.specs.SequenceLaws.{NumberedArrives};

/// States a law, and does nothing: data that one module numbers goes up unchanged at another that expects its
/// number, and nothing is lost.
pub fn what_is_numbered_arrives()
    ensures { NumberedArrives }
{}

/// States a law, and does nothing: the module makes calm messages of a calm message, and sets no more
/// options. So the bound on looks holds for streams with it.
pub fn sequence_is_calm()
    ensures { IsCalm sequence }
{}

/// States a law, and does nothing: no message changes on which sides the module answers.
pub fn sequence_answers_stay()
    ensures { AnswersStay sequence }
{}
