//! The built-in kinds of module that every program has, as a vocabulary.
ghost use Rattle.std.specs.Prelude.{◌≡◌, IfOk, OnOk, OnErr};
ghost use Rattle.strm_module.specs.Builtin.{ordinary_action, flushed_kind};

use crate::acts::{
    act_band, act_count, act_crnl, act_line, act_mute, act_split, act_table, act_tee,
};
use crate::outs::{Outs, pass_on};
use crate::turn::Turn;
use crate::vocabulary::Kinds;
use std::alloc::Global;
use strm_msg::{BoxedMessage, Bytes, Class, MsgKind, NoMem, Side};

/// The longest unfinished line that is kept, in bytes.
pub const MOST_KEPT: usize = 4096;

/// The greatest number of bytes that a `Kind::Split` lets through at once.
pub const MOST_SPLIT: u16 = 4096;

/// A built-in kind of module: the way in which it treats messages, and the state that it keeps for that.
///
/// Only ordinary messages are meant. A message that is not named goes on unchanged, along its side. High ones
/// go on unchanged, whatever the kind.
#[derive(Debug, Drop, PartialEq, Eq)]
pub enum Kind {
    /// Each message goes on unchanged.
    Pass,
    /// Data on its way down is mapped byte by byte. An ioctl of command 3 on its way down is
    /// answered with its own data mapped, and the length of that data as value, which is 0 without
    /// data.
    Table {
        /// The byte that stands for each byte.
        map: [u8; 256],
    },
    /// In data on its way down each LF becomes CR LF. In data on its way up each CR that an LF
    /// directly follows in the same message is removed.
    CrNl,
    /// Data of band 0 on its way up is kept until its line ends: whole lines go up, each with its LF, several
    /// in one message. A rest of over `MOST_KEPT` bytes goes up with all that is before it. A flush of the
    /// read side that is of all bands or of band 0 drops the bytes that are kept, whichever way it passes.
    Line {
        /// The bytes that came since the last LF. No service leaves more than `MOST_KEPT` bytes of it.
        partial: Bytes,
    },
    /// Data messages on their way down are counted. An ioctl of command 1 on its way down is answered with
    /// the count as value. One of command 2 is answered so too, and then sets the count to 0.
    Count {
        /// The number of messages that came, up to the greatest `u64`.
        n: u64,
    },
    /// Data and protocol messages on their way down are put into a band.
    Band {
        /// The band.
        b: u8,
    },
    /// A copy of each data message on its way down goes up, and then the message goes on.
    Tee,
    /// Data messages on their way down are dropped.
    Mute,
    /// A data message of more bytes on its way down goes on as two of its band: its first bytes, then the
    /// rest.
    Split {
        /// The number of bytes of a message that go first.
        n: u16,
    },
}

/// Processes an ordinary message, by the kind of the module.
fn act(alloc: Global, kind: &mut Kind, side: Side, m: BoxedMessage) -> Result<Outs, NoMem>
    ensures outs { IfOk result (λ outs. outs.items ≡ (ordinary_action kind.old side m).outs) }
    ensures kept { OnOk result (kind.new ≡ (ordinary_action kind.old side m).kind) }
    ensures err { OnErr result (kind.new ≡ kind.old) }
{
    match kind {
        Kind::Pass => Ok(pass_on(side, m)),
        Kind::Table { map } => act_table(alloc, map, side, m),
        Kind::CrNl => act_crnl(alloc, side, m),
        Kind::Line { partial } => act_line(alloc, partial, side, m),
        Kind::Count { n } => Ok(act_count(n, side, m)),
        Kind::Band { b } => Ok(act_band(*b, side, m)),
        Kind::Tee => act_tee(alloc, side, m),
        Kind::Mute => Ok(act_mute(side, m)),
        Kind::Split { n } => act_split(alloc, usize::from(*n), side, m),
    }
}

/// Empties a partial line where the read side is flushed in all bands or in band 0.
fn flush(alloc: Global, kind: &mut Kind, by: MsgKind)
    ensures { kind.new ≡ flushed_kind kind.old by }
{
    if let Kind::Line { partial } = kind {
        if matches!(
            by,
            MsgKind::MFlush {
                r: true,
                band: None | Some(0),
                ..
            }
        ) {
            *partial = Bytes::empty();
        }
    }
}

impl Kinds for Kind {
    ghost use Rattle.strm_module.specs.Builtin.{builtin};

    ghost means = { builtin };

    fn process(&mut self, alloc: Global, side: Side, m: BoxedMessage) -> Result<Outs, NoMem> {
        match m.class() {
            Class::High => {
                flush(alloc, self, m.kind);
                Ok(pass_on(side, m))
            }
            Class::Ordinary => act(alloc, self, side, m),
        }
    }

    fn turn(&self, _side: Side) -> Turn {
        Turn::Serves
    }

    fn own(&mut self, _alloc: Global, _side: Side) -> Result<Outs, NoMem> {
        Ok(Outs::new())
    }

    fn answers(&self, side: Side) -> bool {
        matches!((self, side), (Kind::Tee, Side::Wr))
    }

    fn expire(&mut self, _ticks: u32) {}

    fn copy(&self, alloc: Global) -> Result<Kind, NoMem> {
        Ok(match self {
            Kind::Pass => Kind::Pass,
            Kind::Table { map } => Kind::Table { map: *map },
            Kind::CrNl => Kind::CrNl,
            Kind::Line { partial } => Kind::Line {
                partial: partial.copy()?,
            },
            Kind::Count { n } => Kind::Count { n: *n },
            Kind::Band { b } => Kind::Band { b: *b },
            Kind::Tee => Kind::Tee,
            Kind::Mute => Kind::Mute,
            Kind::Split { n } => Kind::Split { n: *n },
        })
    }
}
