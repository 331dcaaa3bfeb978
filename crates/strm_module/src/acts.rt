//! The meaning of the built-in kinds: the messages that each sends for an ordinary message.
ghost use Rattle.std.specs.Prelude.{◌≡◌, [], ◌∷◌, IfOk, OnOk, OnErr, option_map};
ghost use Rattle.strm_msg.specs.Message.{data_msg};
ghost use Rattle.strm_msg.specs.declared.kind.MsgKind.TheVariants.{MData};
ghost use Rattle.strm_module.specs.declared.kind.Kind.TheVariants as Kind;
ghost use Rattle.strm_module.specs.Bytes.{mapped, with_cr, without_cr};
ghost use Rattle.strm_module.specs.Builtin.{table_action, crnl_action, line_splits, line_action, count_action, band_action, tee_action, mute_action, split_action};

use crate::bytes;
use crate::kind::MOST_KEPT;
use crate::outs::{Outs, both, pass_on, reply};
use std::alloc::Global;
use strm_msg::{BoxedMessage, Bytes, Message, MsgKind, NoMem, Side};

/// A part mapped byte by byte, where there is one.
fn mapped_part(
    alloc: Global,
    table: &[u8; 256],
    part: &Option<Bytes>,
) -> Result<Option<Bytes>, NoMem>
    ensures { IfOk result (λ out. out ≡ option_map (mapped table.now) part.now) }
{
    match part {
        Some(bytes) => {
            let bytes = bytes::map_bytes(alloc, table, bytes.as_slice())?;
            Ok(Some(Bytes::from_vec(alloc, bytes)?))
        }
        None => Ok(None),
    }
}

/// A part with CR LF for each LF, where there is one.
fn part_with_cr(alloc: Global, part: &Option<Bytes>) -> Result<Option<Bytes>, NoMem>
    ensures { IfOk result (λ out. out ≡ option_map with_cr part.now) }
{
    match part {
        Some(bytes) => {
            let bytes = bytes::add_cr(alloc, bytes.as_slice())?;
            Ok(Some(Bytes::from_vec(alloc, bytes)?))
        }
        None => Ok(None),
    }
}

/// A part with LF for each CR LF, where there is one.
fn part_without_cr(alloc: Global, part: &Option<Bytes>) -> Result<Option<Bytes>, NoMem>
    ensures { IfOk result (λ out. out ≡ option_map without_cr part.now) }
{
    match part {
        Some(bytes) => {
            let bytes = bytes::drop_cr(alloc, bytes.as_slice())?;
            Ok(Some(Bytes::from_vec(alloc, bytes)?))
        }
        None => Ok(None),
    }
}

/// Maps data on its way down, and answers ioctl 3.
pub(crate) fn act_table(
    alloc: Global,
    table: &[u8; 256],
    side: Side,
    m: BoxedMessage,
) -> Result<Outs, NoMem>
    ensures { IfOk result (λ outs. outs.items ≡ (table_action table.now side m.kind m).outs) }
{
    match (side, m.kind) {
        (Side::Wr, MsgKind::MData) => {
            let dat = mapped_part(alloc, table, &m.dat)?;
            Ok(pass_on(side, m.with_dat(dat)))
        }
        (Side::Wr, MsgKind::MIoctl { id, cmd: 3 }) => {
            let dat = mapped_part(alloc, table, &m.dat)?;
            let rval = match &dat {
                Some(bytes) => bytes.len() as u64,
                None => 0,
            };
            Ok(reply(m.becoming(Message::of_ack(id, rval, dat))))
        }
        _ => Ok(pass_on(side, m)),
    }
}

/// Turns LF into CR LF on the way down, and back on the way up.
pub(crate) fn act_crnl(alloc: Global, side: Side, m: BoxedMessage) -> Result<Outs, NoMem>
    ensures { IfOk result (λ outs. outs.items ≡ (crnl_action side m.kind m).outs) }
{
    match (side, m.kind) {
        (Side::Wr, MsgKind::MData) => {
            let dat = part_with_cr(alloc, &m.dat)?;
            Ok(pass_on(side, m.with_dat(dat)))
        }
        (Side::Rd, MsgKind::MData) => {
            let dat = part_without_cr(alloc, &m.dat)?;
            Ok(pass_on(side, m.with_dat(dat)))
        }
        _ => Ok(pass_on(side, m)),
    }
}

/// Sends data of band 0 up, in the box of another message.
fn data_up(m: BoxedMessage, bytes: Bytes) -> Outs
    ensures { result.items ≡ (Side.Rd, data_msg 0 bytes) ∷ [] }
{
    reply(m.becoming(Message::of_bytes(0, bytes)))
}

/// Sends whole lines up, in the box of the message that came last, and keeps the bytes that follow them. Too
/// long a rest goes up too.
fn split_lines(
    alloc: Global,
    partial: &mut Bytes,
    m: BoxedMessage,
    mut all: Vec<u8>,
) -> Result<Outs, NoMem>
    ensures outs { IfOk result (λ outs. outs.items ≡ (line_splits all.items).outs) }
    ensures kept { OnOk result (Kind.Line partial.new ≡ (line_splits all.items).kind) }
    ensures err { OnErr result (partial.new ≡ partial.old) }
{
    let rest = bytes::rest_len(&all);
    if rest > MOST_KEPT {
        let all = Bytes::from_vec(alloc, all)?;
        *partial = Bytes::empty();
        return Ok(data_up(m, all));
    }
    let whole = all.len() - rest;
    let kept = Bytes::from_slice(alloc, &all[whole..])?;
    if whole == 0 {
        *partial = kept;
        return Ok(Outs::new());
    }
    all.truncate(whole);
    let all = Bytes::from_vec(alloc, all)?;
    *partial = kept;
    Ok(data_up(m, all))
}

/// Puts data of band 0 on its way up behind the bytes that were kept.
pub(crate) fn act_line(
    alloc: Global,
    partial: &mut Bytes,
    side: Side,
    m: BoxedMessage,
) -> Result<Outs, NoMem>
    ensures outs { IfOk result (λ outs. outs.items ≡ (line_action partial.old side m.kind m).outs) }
    ensures kept { OnOk result (Kind.Line partial.new
        ≡ (line_action partial.old side m.kind m).kind) }
    ensures err { OnErr result (partial.new ≡ partial.old) }
{
    match (side, m.kind) {
        (Side::Rd, MsgKind::MData) if m.band == 0 => {
            let all = match &m.dat {
                Some(more) => bytes::joined(alloc, partial.as_slice(), more.as_slice())?,
                None => Vec::from_slice(alloc, partial.as_slice())?,
            };
            split_lines(alloc, partial, m, all)
        }
        _ => Ok(pass_on(side, m)),
    }
}

/// Counts data on its way down, and answers ioctls 1 and 2 with the count.
pub(crate) fn act_count(n: &mut u64, side: Side, m: BoxedMessage) -> Outs
    ensures outs { result.items ≡ (count_action n.old side m.kind m).outs }
    ensures kept { Kind.Count n.new ≡ (count_action n.old side m.kind m).kind }
{
    match (side, m.kind) {
        (Side::Wr, MsgKind::MData) => {
            *n = n.saturating_add(1);
            pass_on(side, m)
        }
        (Side::Wr, MsgKind::MIoctl { id, cmd: 1 }) => {
            reply(m.becoming(Message::of_ack(id, *n, None)))
        }
        (Side::Wr, MsgKind::MIoctl { id, cmd: 2 }) => {
            let counted = *n;
            *n = 0;
            reply(m.becoming(Message::of_ack(id, counted, None)))
        }
        _ => pass_on(side, m),
    }
}

/// Puts data and protocol messages on their way down into a band.
pub(crate) fn act_band(b: u8, side: Side, m: BoxedMessage) -> Outs
    ensures { result.items ≡ (band_action b side m.kind m).outs }
{
    match (side, m.kind) {
        (Side::Wr, MsgKind::MData | MsgKind::MProto) => pass_on(side, m.with_band(b)),
        _ => pass_on(side, m),
    }
}

/// Sends data on its way down up too.
pub(crate) fn act_tee(alloc: Global, side: Side, m: BoxedMessage) -> Result<Outs, NoMem>
    ensures { IfOk result (λ outs. outs.items ≡ (tee_action side m.kind m).outs) }
{
    match (side, m.kind) {
        (Side::Wr, MsgKind::MData) => {
            let twin = m.copy(alloc)?;
            Ok(both((Side::Rd, twin), (Side::Wr, m)))
        }
        _ => Ok(pass_on(side, m)),
    }
}

/// Sends data of a message on in two, where it is of more than `n` bytes: its first `n` bytes, then the rest.
fn split_data(alloc: Global, n: usize, m: BoxedMessage) -> Result<Outs, NoMem>
    ensures { IfOk result (λ outs. outs.items ≡ (split_action n Side.Wr MData m).outs) }
{
    match &m.dat {
        Some(bytes) if bytes.len() > n => {
            let first = Message::of_bytes(m.band, bytes.slice(alloc, 0, n)?);
            let first = BoxedMessage::new(alloc, first)?;
            let rest = Message::of_bytes(m.band, bytes.slice(alloc, n, bytes.len())?);
            Ok(both((Side::Wr, first), (Side::Wr, m.becoming(rest))))
        }
        _ => Ok(pass_on(Side::Wr, m)),
    }
}

/// Sends data of more than `n` bytes on its way down on in two messages.
pub(crate) fn act_split(alloc: Global, n: usize, side: Side, m: BoxedMessage) -> Result<Outs, NoMem>
    ensures { IfOk result (λ outs. outs.items ≡ (split_action n side m.kind m).outs) }
{
    match (side, m.kind) {
        (Side::Wr, MsgKind::MData) => split_data(alloc, n, m),
        _ => Ok(pass_on(side, m)),
    }
}

/// Drops data on its way down.
pub(crate) fn act_mute(side: Side, m: BoxedMessage) -> Outs
    ensures { result.items ≡ (mute_action side m.kind m).outs }
{
    match (side, m.kind) {
        (Side::Wr, MsgKind::MData) => Outs::new(),
        _ => pass_on(side, m),
    }
}
