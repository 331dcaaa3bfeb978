//! The promises of links, as laws of their definition.
ghost use Rattle.strm_link.specs.Laws.{LinkKeeps, LinkMakesNone, LinkOnlyHolds, LinkOnlyLoses};

/// States a law, and does nothing: a link that neither loses, doubles nor holds passes on what was taken, in
/// order, and holds nothing.
pub fn link_keeps()
    ensures { LinkKeeps }
{}

/// States a law, and does nothing: a link that neither doubles nor holds passes on a part of what was taken,
/// in order, and holds nothing.
pub fn link_only_loses()
    ensures { LinkOnlyLoses }
{}

/// States a law, and does nothing: a link that neither loses nor doubles has passed on all that was taken,
/// each message once, but for the one that it holds.
pub fn link_only_holds()
    ensures { LinkOnlyHolds }
{}

/// States a law, and does nothing: whatever a link passes on or holds was taken.
pub fn link_makes_none()
    ensures { LinkMakesNone }
{}
