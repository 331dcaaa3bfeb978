//! The kinds of module of a program with acknowledged links.
ghost use Rattle.std.specs.Prelude.{◌≡◌, [], unwrap_or, IfOk, OnOk, OnErr};
ghost use Rattle.strm_msg.specs.declared.words.Side.TheVariants as Side;
ghost use Rattle.port_arq.specs.Frame.{frame_in};
ghost use Rattle.port_arq_module.specs.Arq.{arq_action, arq_own, down_action, up_action, write_turn};
ghost use Rattle.port_arq_module.specs.declared.kinds.ArqKind.TheVariants as ArqKind;

use port_arq::{Frame, Peer};
use std::alloc::Global;
use strm_module::{Kind, Kinds, Outs, Turn, pass_on};
use strm_msg::{BoxedMessage, Bytes, Message, MsgKind, NoMem, Side as Sides};

/// A kind of module, with its state: an end of an acknowledged link, or one of the framework's built-in
/// kinds.
#[derive(Debug, Drop, PartialEq, Eq)]
pub enum ArqKind {
    /// One of the built-in kinds, with its meaning.
    Builtin {
        /// The built-in kind, with its state.
        kind: Kind,
    },
    /// An end of an acknowledged link. What is below it may lose, double, delay and reorder data.
    ///
    /// The bytes of data on its way down, of any band, are a message of the link; without a part they are
    /// none. Give the module a write queue: its service sends the frames, and takes no data while the window
    /// is full. So a writer is held by flow control. Without one nothing is ever sent, and data that the end
    /// refuses is dropped. A frame is a data message of band 0.
    ///
    /// Data on its way up is heard as a frame. A message that goes up for it is data of band 0. What is no
    /// frame is dropped. A frame that nobody sent is the fault of what is below.
    ///
    /// All other messages go on unchanged, and the end keeps its state. A flush empties the queues as ever:
    /// data that waits above the end is not handed down, and a frame is lost as by the link. Ticks run the
    /// timer of the end.
    Arq {
        /// The end of the link.
        peer: Peer,
    },
}

/// The bytes of a data part, which it shares. Fails only where they have more owners than can be counted.
fn bytes_of(part: &Option<Bytes>) -> Result<Bytes, NoMem>
    ensures { IfOk result (λ bytes. bytes ≡ unwrap_or part.now []) }
{
    match part {
        Some(bytes) => bytes.copy(),
        None => Ok(Bytes::empty()),
    }
}

/// The frame that a data part is, if it is one. Fails only when memory runs out.
fn frame_of(alloc: Global, part: &Option<Bytes>) -> Result<Option<Frame>, NoMem>
    ensures { IfOk result (λ frame. frame ≡ frame_in (unwrap_or part.now [])) }
{
    match part {
        Some(bytes) => Frame::read(alloc, bytes),
        None => Ok(None),
    }
}

/// Hands data on its way down to the end of the link. It is dropped where it is refused.
fn hand_down(peer: &mut Peer, part: &Option<Bytes>) -> Result<Outs, NoMem>
    ensures outs { IfOk result (λ outs. outs.items ≡ (down_action peer.old (unwrap_or part.now [])).outs) }
    ensures kept { OnOk result (ArqKind.Arq peer.new ≡ (down_action peer.old (unwrap_or part.now [])).kind) }
    ensures err { OnErr result (peer.new ≡ peer.old) }
{
    let _ = peer.hand_down(bytes_of(part)?);
    Ok(Outs::new())
}

/// Hears data on its way up as a frame, and sends the message that goes up for it.
fn hear(alloc: Global, peer: &mut Peer, m: BoxedMessage) -> Result<Outs, NoMem>
    ensures outs { IfOk result (λ outs. outs.items ≡ (up_action peer.old (frame_in (unwrap_or m.dat []))).outs) }
    ensures kept { OnOk result (ArqKind.Arq peer.new ≡ (up_action peer.old (frame_in (unwrap_or m.dat []))).kind) }
    ensures err { OnErr result (peer.new ≡ peer.old) }
{
    let Some(frame) = frame_of(alloc, &m.dat)? else {
        return Ok(Outs::new());
    };
    match peer.hear(frame) {
        Some(bytes) => Ok(pass_on(Sides::Rd, m.becoming(Message::of_bytes(0, bytes)))),
        None => Ok(Outs::new()),
    }
}

/// Processes a message as an end of a link does.
fn process_arq(alloc: Global, peer: &mut Peer, side: Sides, m: BoxedMessage) -> Result<Outs, NoMem>
    ensures outs { IfOk result (λ outs. outs.items ≡ (arq_action peer.old side m.kind m).outs) }
    ensures kept { OnOk result (ArqKind.Arq peer.new ≡ (arq_action peer.old side m.kind m).kind) }
    ensures err { OnErr result (peer.new ≡ peer.old) }
{
    match (side, m.kind) {
        (Sides::Wr, MsgKind::MData) => hand_down(peer, &m.dat),
        (Sides::Rd, MsgKind::MData) => hear(alloc, peer, m),
        _ => Ok(pass_on(side, m)),
    }
}

/// The turn of the write side: a frame that is owed, or else data if it is not refused.
fn write_turn(peer: &Peer) -> Turn
    ensures { result ≡ write_turn peer.now }
{
    if peer.owes_frame() {
        Turn::Sends { band: Some(0) }
    } else if peer.refusal().is_some() {
        Turn::Shut
    } else {
        Turn::Serves
    }
}

/// The next frame of an end of a link, as data on its way down.
fn next_frame(alloc: Global, peer: &Peer) -> Result<Outs, NoMem>
    ensures { IfOk result (λ outs. outs.items ≡ (arq_own (ArqKind.Arq peer.now) Side.Wr).outs) }
{
    let Some(frame) = peer.next_frame()? else {
        return Ok(Outs::new());
    };
    let m = Message::of_bytes(0, frame.bytes(alloc)?);
    Ok(pass_on(Sides::Wr, BoxedMessage::new(alloc, m)?))
}

/// Sends the next frame.
fn send(alloc: Global, peer: &mut Peer) -> Result<Outs, NoMem>
    ensures outs { IfOk result (λ outs. outs.items ≡ (arq_own (ArqKind.Arq peer.old) Side.Wr).outs) }
    ensures kept { OnOk result (ArqKind.Arq peer.new ≡ (arq_own (ArqKind.Arq peer.old) Side.Wr).kind) }
    ensures err { OnErr result (peer.new ≡ peer.old) }
{
    let frame = next_frame(alloc, peer)?;
    peer.note_sent();
    Ok(frame)
}

impl Kinds for ArqKind {
    ghost use Rattle.port_arq_module.specs.Arq.{arq};

    ghost means = { arq };

    fn process(&mut self, alloc: Global, side: Sides, m: BoxedMessage) -> Result<Outs, NoMem> {
        match self {
            ArqKind::Builtin { kind } => kind.process(alloc, side, m),
            ArqKind::Arq { peer } => process_arq(alloc, peer, side, m),
        }
    }

    fn turn(&self, side: Sides) -> Turn {
        match (self, side) {
            (ArqKind::Builtin { kind }, _) => kind.turn(side),
            (ArqKind::Arq { peer }, Sides::Wr) => write_turn(peer),
            (ArqKind::Arq { .. }, Sides::Rd) => Turn::Serves,
        }
    }

    fn own(&mut self, alloc: Global, side: Sides) -> Result<Outs, NoMem> {
        match (self, side) {
            (ArqKind::Builtin { kind }, _) => kind.own(alloc, side),
            (ArqKind::Arq { peer }, Sides::Wr) => send(alloc, peer),
            (ArqKind::Arq { .. }, Sides::Rd) => Ok(Outs::new()),
        }
    }

    fn answers(&self, side: Sides) -> bool {
        match (self, side) {
            (ArqKind::Builtin { kind }, _) => kind.answers(side),
            (ArqKind::Arq { .. }, Sides::Rd) => true,
            (ArqKind::Arq { .. }, Sides::Wr) => false,
        }
    }

    fn expire(&mut self, ticks: u32) {
        match self {
            ArqKind::Builtin { kind } => kind.expire(ticks),
            ArqKind::Arq { peer } => peer.tick(ticks),
        }
    }

    fn copy(&self, alloc: Global) -> Result<ArqKind, NoMem> {
        Ok(match self {
            ArqKind::Builtin { kind } => ArqKind::Builtin {
                kind: kind.copy(alloc)?,
            },
            ArqKind::Arq { peer } => ArqKind::Arq { peer: peer.copy()? },
        })
    }
}
