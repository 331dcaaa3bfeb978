//! The promises of a data link, as laws of its definitions.
ghost use Rattle.port_arq.specs.FrameLaws.{FramesComeBack, FramesHaveOneSpelling};
ghost use Rattle.port_arq.specs.LinkLaws.{AllCanStillArrive, MessagesAreCarried};

/// States the law of the protocol, and does nothing: over any link that loses, doubles, delays and reorders
/// frames, what goes up at one end is a beginning of what was handed down at the other, in order, once each.
/// What an end knows as acknowledged went up, and once that is all, all of it went up.
///
/// It does not say that anything ever arrives.
pub fn messages_are_carried()
    ensures { MessagesAreCarried }
{}

/// States a law, and does nothing: whatever has happened on a link, all that was handed down by then can
/// still go up.
///
/// It does not say that it will.
pub fn all_can_still_arrive()
    ensures { AllCanStillArrive }
{}

/// States laws, and does nothing: a frame that is written as bytes is read as it was, and no other bytes are
/// read as that frame.
pub fn frames_come_back()
    ensures back { FramesComeBack }
    ensures one { FramesHaveOneSpelling }
{}
