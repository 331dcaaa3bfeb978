//! The promises of a line discipline, as laws of its definitions.
ghost use Rattle.port_termio.specs.Typing.{MessageIsTyped, RawMessageIsTyped};
ghost use Rattle.port_termio.specs.EditLaws.{PlainLineIsRead, PlainLineIsShown, EraseTakesBack, KillTakesBackAll, ScreenShowsLine, NothingShownWithoutEcho, RawIsRead, NothingTypedIsLost, PiecesAreOneTyping, LinesAreShort};

/// States laws, and does nothing: keys go up as they were meant. With ICANON they go up in lines of at most
/// `LONGEST_LINE` bytes, and without it one by one. While a line has room, none of its keys is lost.
pub fn keys_make_lines()
    ensures plain { PlainLineIsRead }
    ensures raw { RawIsRead }
    ensures lossless { NothingTypedIsLost }
    ensures short { LinesAreShort }
{}

/// States laws, and does nothing: a key that is taken back reads as if nobody had typed it.
pub fn keys_edit_lines()
    ensures erase { EraseTakesBack }
    ensures kill { KillTakesBackAll }
{}

/// States laws, and does nothing: with ECHO the screen shows the line that will be read. Without ECHO it
/// shows nothing.
pub fn lines_are_shown()
    ensures row { ScreenShowsLine }
    ensures plain { PlainLineIsShown }
    ensures nothing { NothingShownWithoutEcho }
{}

/// States a law, and does nothing: messages may cut the keys anywhere.
pub fn keys_come_in_pieces()
    ensures { PiecesAreOneTyping }
{}

/// States laws, and does nothing: what a terminal types of one message is what its keys mean, one after
/// another.
pub fn messages_are_typed()
    ensures lines { MessageIsTyped }
    ensures raw { RawMessageIsTyped }
{}
