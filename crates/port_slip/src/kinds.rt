//! The kinds of module of a program with SLIP.
ghost use Rattle.std.specs.Prelude.{◌≡◌, [], take, unwrap_or, option_map, IfOk, OnOk, OnErr};
ghost use Rattle.strm_msg.specs.Message.{data_msg};
ghost use Rattle.strm_msg.specs.declared.words.Side.TheVariants as Side;
ghost use Rattle.port_slip.specs.Frame.{framed, begun, received};
ghost use Rattle.port_slip.specs.Slip.{datagrams_up, received_action, kept_after, slip_action, received_behind};
ghost use Rattle.port_slip.specs.declared.kinds.SlipKind.TheVariants as SlipKind;

use crate::framing::{begun, first_datagram, frame, holds_frame};
use std::alloc::{AllocError, Global};
use strm_module::{Kind, Kinds, Outs, Turn, both, pass_on};
use strm_msg::{BoxedMessage, Bytes, Message, MsgKind, NoMem, Side as Sides};

/// The most bytes that are kept of a frame that has not ended. Each byte of a datagram takes at most two of
/// them.
pub const MOST_KEPT: usize = 2012;

/// A kind of module, with its state: SLIP, or one of the framework's built-in kinds.
#[derive(Debug, Drop, PartialEq, Eq)]
pub enum SlipKind {
    /// One of the built-in kinds, with its meaning.
    Builtin {
        /// The built-in kind, with its state.
        kind: Kind,
    },
    /// Datagrams on a line of bytes (RFC 1055). A data message on its way down becomes a frame, in its band.
    /// Data on its way up is unframed: each datagram goes up as a message of its own, in the band of the
    /// message with which its frame ended.
    ///
    /// A call sends at most two datagrams, and the bytes behind the second one are kept. With a read queue,
    /// the module's service sends them before it takes the messages that wait. So all of them go up in the
    /// same event, as far as the queue above has room. Without a read queue they go up with the data that
    /// comes next.
    ///
    /// A flush of the read side, of any bands, and a hangup drop the bytes that are kept. All other messages
    /// go on unchanged.
    Slip {
        /// The bytes that came up and have not gone on: whole frames, and behind them a frame without its
        /// END. At most 2012 bytes of that frame are kept if no whole frame is before it.
        kept: Bytes,
        /// The band of the data that came up last. The bytes that are kept go up in it.
        band: u8,
    },
}

/// The bytes of a data part.
fn bytes_of(part: &Option<Bytes>) -> &[u8]
    ensures { result.now ≡ unwrap_or part.now [] }
{
    match part {
        Some(bytes) => bytes.as_slice(),
        None => &[],
    }
}

/// A data part as a frame.
fn framed_part(alloc: Global, part: &Option<Bytes>) -> Result<Option<Bytes>, NoMem>
    ensures { IfOk result (λ out. out ≡ option_map framed part.now) }
{
    match part {
        Some(bytes) => {
            let framed = frame(alloc, bytes.as_slice())?;
            Ok(Some(Bytes::from_vec(alloc, framed)?))
        }
        None => Ok(None),
    }
}

/// The bytes that are kept when no further frame ends.
#[tactic(auto, using(std::proofs::lemmas::List::take_min))]
fn unfinished(alloc: Global, bytes: &[u8]) -> Result<Vec<u8>, AllocError>
    ensures { IfOk result (λ out. out.items ≡ take MOST_KEPT (begun bytes.now)) }
{
    let frame = begun(bytes);
    Vec::from_slice(alloc, &frame[..MOST_KEPT.min(frame.len())])
}

/// A datagram on its way up, in a box of its own. Fails only when memory runs out.
fn data_up(alloc: Global, band: u8, datagram: Vec<u8>) -> Result<(Sides, BoxedMessage), NoMem>
    ensures { IfOk result (λ out. out ≡ (Side.Rd, data_msg band datagram.items)) }
{
    let m = Message {
        kind: MsgKind::MData,
        band,
        ctl: None,
        dat: Some(Bytes::from_vec(alloc, datagram)?),
    };
    Ok((Sides::Rd, BoxedMessage::new(alloc, m)?))
}

/// Sends the first two datagrams up, and keeps the rest.
fn receive(alloc: Global, band: u8, bytes: &[u8]) -> Result<(Outs, Vec<u8>), NoMem>
    ensures outs { IfOk result (λ all. all.0.items ≡ datagrams_up band (received 2 bytes.now).datagrams) }
    ensures kept { IfOk result (λ all. all.1.items ≡ (received 2 bytes.now).kept) }
{
    let Some((first, rest)) = first_datagram(alloc, bytes)? else {
        return Ok((Outs::new(), unfinished(alloc, bytes)?));
    };
    let Some((second, rest)) = first_datagram(alloc, rest)? else {
        let (side, m) = data_up(alloc, band, first)?;
        return Ok((pass_on(side, m), unfinished(alloc, rest)?));
    };
    let first = data_up(alloc, band, first)?;
    let second = data_up(alloc, band, second)?;
    Ok((both(first, second), Vec::from_slice(alloc, rest)?))
}

/// Puts data on its way up behind the bytes that are kept, and sends the first two datagrams up.
fn receive_behind(
    alloc: Global,
    kept: &mut Bytes,
    band: &mut u8,
    m: &Message,
) -> Result<Outs, NoMem>
    ensures outs { IfOk result (λ outs. outs.items ≡ (received_behind kept.old m.now).outs) }
    ensures kept { OnOk result (SlipKind.Slip kept.new band.new ≡ (received_behind kept.old m.now).kind) }
    ensures err { OnErr result ((kept.new ≡ kept.old) × (band.new ≡ band.old)) }
{
    let mut bytes = Vec::from_slice(alloc, kept.as_slice())?;
    bytes.extend_from_slice(bytes_of(&m.dat))?;
    let (outs, rest) = receive(alloc, m.band, &bytes)?;
    *kept = Bytes::from_vec(alloc, rest)?;
    *band = m.band;
    Ok(outs)
}

/// Sends two more datagrams up from the bytes that are kept.
fn receive_more(alloc: Global, kept: &mut Bytes, band: u8) -> Result<Outs, NoMem>
    ensures outs { IfOk result (λ outs. outs.items ≡ (received_action band kept.old).outs) }
    ensures kept { OnOk result (SlipKind.Slip kept.new band ≡ (received_action band kept.old).kind) }
    ensures err { OnErr result (kept.new ≡ kept.old) }
{
    let (outs, rest) = receive(alloc, band, kept.as_slice())?;
    *kept = Bytes::from_vec(alloc, rest)?;
    Ok(outs)
}

/// Lets a message pass, which may drop the bytes that are kept.
fn let_by(alloc: Global, kept: &mut Bytes, kind: MsgKind)
    ensures { kept.new ≡ kept_after kept.old kind }
{
    match kind {
        MsgKind::MFlush { r: true, .. } | MsgKind::MHangup => *kept = Bytes::empty(),
        _ => {}
    }
}

/// Processes a message as SLIP does.
fn process_slip(
    alloc: Global,
    kept: &mut Bytes,
    band: &mut u8,
    side: Sides,
    m: BoxedMessage,
) -> Result<Outs, NoMem>
    ensures outs { IfOk result (λ outs. outs.items ≡ (slip_action kept.old band.old side m.kind m).outs) }
    ensures kept { OnOk result (SlipKind.Slip kept.new band.new ≡ (slip_action kept.old band.old side m.kind m).kind) }
    ensures err { OnErr result ((kept.new ≡ kept.old) × (band.new ≡ band.old)) }
{
    match (side, m.kind) {
        (Sides::Wr, MsgKind::MData) => {
            let dat = framed_part(alloc, &m.dat)?;
            Ok(pass_on(side, m.with_dat(dat)))
        }
        (Sides::Rd, MsgKind::MData) => receive_behind(alloc, kept, band, &m),
        _ => {
            let_by(alloc, kept, m.kind);
            Ok(pass_on(side, m))
        }
    }
}

impl Kinds for SlipKind {
    ghost use Rattle.port_slip.specs.Slip.{slip};

    ghost means = { slip };

    fn process(&mut self, alloc: Global, side: Sides, m: BoxedMessage) -> Result<Outs, NoMem> {
        match self {
            SlipKind::Builtin { kind } => kind.process(alloc, side, m),
            SlipKind::Slip { kept, band } => process_slip(alloc, kept, band, side, m),
        }
    }

    fn turn(&self, side: Sides) -> Turn {
        match (self, side) {
            (SlipKind::Builtin { kind }, _) => kind.turn(side),
            (SlipKind::Slip { kept, band }, Sides::Rd) if holds_frame(kept.as_slice()) => {
                Turn::Sends { band: Some(*band) }
            }
            (SlipKind::Slip { .. }, _) => Turn::Serves,
        }
    }

    fn own(&mut self, alloc: Global, side: Sides) -> Result<Outs, NoMem> {
        match (self, side) {
            (SlipKind::Builtin { kind }, _) => kind.own(alloc, side),
            (SlipKind::Slip { kept, band }, Sides::Rd) => receive_more(alloc, kept, *band),
            (SlipKind::Slip { .. }, Sides::Wr) => Ok(Outs::new()),
        }
    }

    fn answers(&self, side: Sides) -> bool {
        match self {
            SlipKind::Builtin { kind } => kind.answers(side),
            SlipKind::Slip { .. } => false,
        }
    }

    fn expire(&mut self, _ticks: u32) {}

    fn copy(&self, alloc: Global) -> Result<SlipKind, NoMem> {
        Ok(match self {
            SlipKind::Builtin { kind } => SlipKind::Builtin {
                kind: kind.copy(alloc)?,
            },
            SlipKind::Slip { kept, band } => SlipKind::Slip {
                kept: kept.copy()?,
                band: *band,
            },
        })
    }
}
