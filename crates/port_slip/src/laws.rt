//! The promises of SLIP, as laws of its definitions.
ghost use Rattle.strm_module.specs.Calm.{MakesCalm};
ghost use Rattle.strm_module.specs.Kinds.{AnswersStay};
ghost use Rattle.strm_chain_ends.specs.Image.{Image};
ghost use Rattle.strm_chain_settling.specs.Ends.{Ends};
ghost use Rattle.port_slip.specs.FrameLaws.{EscapingLeavesNoEnd, FramedIsReceived, NoiseStaysApart, PiecesAreOneLine, RestFollows, UnfinishedIsBounded};
ghost use Rattle.port_slip.specs.Slip.{slip};
ghost use Rattle.port_slip.specs.declared.kinds.SlipKind.{SlipKind};
ghost use Rattle.port_slip.specs.SlipLaws.{DatagramsGoThrough, NothingIsHeldBack};

/// States laws, and does nothing: a datagram that was framed is received unchanged, whatever is before and
/// behind it. The laws are for datagrams of 1 to 1006 bytes, however the bytes come in messages.
pub fn frames_keep_datagrams()
    ensures no_end { EscapingLeavesNoEnd }
    ensures back { FramedIsReceived }
    ensures apart { NoiseStaysApart }
    ensures pieces { PiecesAreOneLine }
    ensures rest { RestFollows }
    ensures bounded { UnfinishedIsBounded }
{}

/// States a law, and does nothing: a datagram that a SLIP module sends down goes up unchanged at another.
pub fn modules_keep_datagrams()
    ensures { DatagramsGoThrough }
{}

/// States a law, and does nothing: a SLIP module with a read queue that the stream services holds no datagram
/// back. Once nothing must move, it keeps no whole frame for which the queue above has room.
pub fn modules_hold_nothing_back()
    ensures { NothingIsHeldBack }
{}

/// States a law, and does nothing: SLIP and the built-in kinds make calm messages of a calm message, and
/// their own messages are calm. A message is calm if it flushes nothing on its way. All are calm but a flush,
/// and an error, which a head answers with a flush. These messages also set options of a head no more often
/// than the message does.
pub fn slip_is_calm()
    ensures { MakesCalm slip }
{}

/// States a law, and does nothing: the sides on which a kind answers are changed by no message, and by
/// nothing that is sent of its own.
pub fn slip_answers_stay()
    ensures { AnswersStay slip }
{}

/// States a law, and does nothing: settling ends, whatever modules are in a chain of SLIP and built-in kinds,
/// and whatever messages wait. The messages that SLIP sends of its own make its state shorter.
pub fn slip_settles()
    ensures { (image : Image SlipKind) → Ends slip image }
{}
