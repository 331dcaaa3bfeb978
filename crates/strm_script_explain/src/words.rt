//! The words that may stand in a field.
use std::alloc::Global;
use strm_head_calls::{GetFlag, Priority, PutFlag, Wanted};
use strm_module::Driver;
use strm_msg::{Errno, NoMem, Prot, ReadMode, Side};
use strm_script_words::{InnerWord, Keyword, KindWord, MessageWord};

/// Words of which one may stand in a field.
#[derive(Clone, Copy, Debug, PartialEq, Eq)]
pub(crate) enum Words {
    /// The drivers.
    Drivers,
    /// The kinds of module, and the word that may be before one.
    Pushed,
    /// The kinds of module.
    Kinds,
    /// The word before the kind of a module whose service procedures are the program's.
    Noenable,
    /// The messages that a service call may send.
    Messages,
    /// The priorities of a putmsg.
    Priorities,
    /// The flags of a putpmsg.
    PutFlags,
    /// The messages that a getmsg may ask for.
    Wanted,
    /// The flags of a getpmsg.
    GetFlags,
    /// Whether an ioctl is kept or dropped.
    Drops,
    /// The sides of a flush.
    Flushes,
    /// How reads treat the bounds of messages.
    Modes,
    /// How reads treat control.
    Controls,
    /// The sides of a module.
    Sides,
    /// The errnos.
    Errnos,
    /// The words of the rules of links.
    Rules,
}

/// The word before the kind of a module whose service procedures are the program's.
pub(crate) const NOENABLE: &[u8] = b"noenable";

/// The word of a rule that is a pattern of acts.
pub(crate) const ACTS: &[u8] = b"acts";

/// The word of a rule that draws acts.
pub(crate) const SEED: &[u8] = b"seed";

/// Adds the words of all values of a type. Fails only when memory runs out.
pub(crate) fn add_all<W: Keyword>(words: &mut Vec<&'static [u8]>) -> Result<(), NoMem> {
    for one in W::all() {
        words.push(one.word())?;
    }
    Ok(())
}

/// The drivers, in the order of the grammar.
const DRIVERS: [Driver; 4] = [Driver::Echo, Driver::Loop, Driver::Line, Driver::Wire];

/// The driver of a word; nothing if the word names none.
pub(crate) fn driver_of(text: &[u8]) -> Option<Driver> {
    DRIVERS.iter().copied().find(|driver| driver.name() == text)
}

/// Adds the words of the drivers. Fails only when memory runs out.
fn add_drivers(words: &mut Vec<&'static [u8]>) -> Result<(), NoMem> {
    for driver in DRIVERS {
        words.push(driver.name())?;
    }
    Ok(())
}

impl Words {
    /// Whether the word says which fields are behind it.
    pub(crate) fn is_head(self) -> bool {
        matches!(
            self,
            Words::Drivers | Words::Pushed | Words::Kinds | Words::Messages | Words::Rules
        )
    }

    /// The words, in the order of the grammar. Fails only when memory runs out.
    pub(crate) fn list(self, alloc: Global) -> Result<Vec<&'static [u8]>, NoMem> {
        let mut words: Vec<&'static [u8]> = Vec::new(alloc);
        if matches!(self, Words::Pushed | Words::Noenable) {
            words.push(NOENABLE)?;
        }
        match self {
            Words::Drivers => add_drivers(&mut words)?,
            Words::Pushed | Words::Kinds => add_all::<KindWord>(&mut words)?,
            Words::Noenable => {}
            Words::Messages => {
                add_all::<MessageWord>(&mut words)?;
                add_all::<InnerWord>(&mut words)?;
            }
            Words::Priorities => add_all::<Priority>(&mut words)?,
            Words::PutFlags => add_all::<PutFlag>(&mut words)?,
            Words::Wanted => add_all::<Wanted>(&mut words)?,
            Words::GetFlags => add_all::<GetFlag>(&mut words)?,
            Words::Drops => {
                words.push(false.word())?;
                words.push(true.word())?;
            }
            Words::Flushes => add_all::<(bool, bool)>(&mut words)?,
            Words::Modes => add_all::<ReadMode>(&mut words)?,
            Words::Controls => add_all::<Prot>(&mut words)?,
            Words::Sides => add_all::<Side>(&mut words)?,
            Words::Errnos => add_all::<Errno>(&mut words)?,
            Words::Rules => {
                words.push(ACTS)?;
                words.push(SEED)?;
            }
        }
        Ok(words)
    }
}
