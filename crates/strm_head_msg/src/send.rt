//! Putmsg, putpmsg and write: a message is made and sent down.
ghost use Rattle.std.specs.Prelude.{◌≡◌, true, false, IfOk, IsOk, IsNone, nat_lt, Some, length};
ghost use Rattle.strm_msg.specs.Message.{part_len, data_msg};
ghost use Rattle.strm_chain.specs.Deliver.{is_there};
ghost use Rattle.strm_chain.specs.declared.spot.Spot.TheVariants as Spots;
ghost use Rattle.strm_chain.specs.Fault.{Fails};
ghost use Rattle.strm_head_calls.specs.declared.answer.Reply.TheVariants as Replies;
ghost use Rattle.strm_head_calls.specs.Refusal.{first_that_holds};
ghost use Rattle.strm_head_msg.specs.Send.{putmsg_refusals, putpmsg_refusals, write_refusals, ordinary_message, high_message, ordinary_band, waiting_refusals, sending_refusals, IsSent, NotSent, putmsg_sent, putpmsg_sent};

use strm_chain::{Chain, ChainFault, Spot, deliver};
use strm_head_calls::{MAX_CONTROL, MAX_DATA, Parts, Priority, PutFlag, Refusal, Reply};
use strm_module::ModuleOf;
use strm_msg::{Bytes, End, Message, MsgKind};

/// Whether a part has more bytes than `most`.
fn is_longer(part: &Option<Bytes>, most: usize) -> bool
    ensures { result ≡ nat_lt most (part_len part.now) }
{
    match part {
        Some(bytes) => bytes.len() > most,
        None => false,
    }
}

/// The refusal that each call that sends shares, but for a part that is too long: an end that is hung up, and
/// a first write queue that is full in the band of an ordinary message.
fn waiting_refusal<M: ModuleOf>(chain: &Chain<M>, end: End, band: Option<u8>) -> Option<Refusal>
    ensures { result ≡ first_that_holds (waiting_refusals chain.now.image end band) }
{
    if chain.state(end).hung {
        return Some(Refusal::HungUp);
    }
    match band {
        Some(band) if chain.full_ahead(end, band) => Some(Refusal::WouldWait),
        _ => None,
    }
}

/// The refusal that each call that sends shares.
fn sending_refusal<M: ModuleOf>(
    chain: &Chain<M>,
    end: End,
    parts: &Parts,
    band: Option<u8>,
) -> Option<Refusal>
    ensures { result ≡ first_that_holds (sending_refusals chain.now.image end parts.now.ctl parts.now.dat band) }
{
    if is_longer(&parts.ctl, MAX_CONTROL) || is_longer(&parts.dat, MAX_DATA) {
        return Some(Refusal::TooLong);
    }
    waiting_refusal(chain, end, band)
}

/// The band of an ordinary message of these parts, if they make one.
fn ordinary_band(band: u8, parts: &Parts) -> Option<u8>
    ensures { result ≡ ordinary_band (ordinary_message band parts.now.ctl parts.now.dat) }
{
    if parts.ctl.is_none() && parts.dat.is_none() {
        return None;
    }
    Some(band)
}

/// The ordinary message of a band that these parts make, if they make one.
fn ordinary_message(band: u8, parts: Parts) -> Option<Message>
    ensures { result ≡ ordinary_message band parts.ctl parts.dat }
{
    let Parts { ctl, dat } = parts;
    match ctl {
        Some(ctl) => Some(Message {
            kind: MsgKind::MProto,
            band,
            ctl: Some(ctl),
            dat,
        }),
        None => dat.map(|dat| Message {
            kind: MsgKind::MData,
            band,
            ctl: None,
            dat: Some(dat),
        }),
    }
}

/// The high-priority message that these parts make, if there is control.
fn high_message(parts: Parts) -> Option<Message>
    ensures { result ≡ high_message parts.ctl parts.dat }
{
    let Parts { ctl, dat } = parts;
    ctl.map(|ctl| Message {
        kind: MsgKind::MPcproto,
        band: 0,
        ctl: Some(ctl),
        dat,
    })
}

/// Sends a message down from the head, if there is one.
fn send<M: ModuleOf>(chain: &mut Chain<M>, end: End, m: Option<Message>) -> Result<(), ChainFault>
    requires there { is_there chain.old.image (Spots.Down end 1) ≡ true }
    requires whole { chain.old.image.broken ≡ false }
    ensures image { IsSent M.Kind.means chain.old end m result chain.new }
    ensures refused { NotSent M.Kind.means chain.old end m result chain.new }
    ensures nothing { IsNone m → IsOk result }
{
    match m {
        Some(m) => deliver(chain, Spot::top(end), m),
        None => Ok(()),
    }
}

/// The first of a putmsg's own refusals that holds (putmsg(2)): EINVAL for a high message without control;
/// ERANGE for a part over its greatest size; ENXIO for an end that is hung up; and EAGAIN for an ordinary
/// message whose band is full in the first write queue.
pub fn putmsg_refusal<M: ModuleOf>(
    chain: &Chain<M>,
    end: End,
    parts: &Parts,
    flag: Priority,
) -> Option<Refusal>
    ensures { result ≡ first_that_holds (putmsg_refusals chain.now.image end parts.now.ctl parts.now.dat flag) }
{
    let band = match flag {
        Priority::Norm => ordinary_band(0, parts),
        Priority::Hipri if parts.ctl.is_none() => return Some(Refusal::Invalid),
        Priority::Hipri => None,
    };
    sending_refusal(chain, end, parts, band)
}

/// Makes the message of a putmsg and sends it down. Without a part nothing is sent, but a high message
/// without control is a refusal (putmsg(2)).
///
/// To be called where the end is there, and the chain is not broken. Fails only when memory runs out, and not
/// where nothing is sent: nothing is changed, or the chain breaks.
pub fn putmsg<M: ModuleOf>(
    chain: &mut Chain<M>,
    end: End,
    parts: Parts,
    flag: Priority,
) -> Result<Reply, ChainFault>
    requires there { is_there chain.old.image (Spots.Down end 1) ≡ true }
    requires whole { chain.old.image.broken ≡ false }
    ensures reply { IfOk result (λ reply. reply ≡ Replies.Putmsg) }
    ensures image { IsSent M.Kind.means chain.old end (putmsg_sent parts flag) result chain.new }
    ensures refused { NotSent M.Kind.means chain.old end (putmsg_sent parts flag) result chain.new }
    ensures nothing { IsNone (putmsg_sent parts flag) → IsOk result }
{
    let m = match flag {
        Priority::Norm => ordinary_message(0, parts),
        Priority::Hipri => high_message(parts),
    };
    send(chain, end, m)?;
    Ok(Reply::Putmsg)
}

/// The first of a putpmsg's own refusals that holds: EINVAL without a flag, and for a high message
/// without control or of a band other than 0; ERANGE for a part over its greatest size; ENXIO for an
/// end that is hung up; and EAGAIN for an ordinary message whose band is full in the first write
/// queue (putpmsg(2)).
pub fn putpmsg_refusal<M: ModuleOf>(
    chain: &Chain<M>,
    end: End,
    parts: &Parts,
    band: u8,
    flag: PutFlag,
) -> Option<Refusal>
    ensures { result ≡ first_that_holds (putpmsg_refusals chain.now.image end parts.now.ctl parts.now.dat band flag) }
{
    let ordinary = match flag {
        PutFlag::Zero => return Some(Refusal::Invalid),
        PutFlag::Band => ordinary_band(band, parts),
        PutFlag::Hipri if parts.ctl.is_none() || band != 0 => return Some(Refusal::Invalid),
        PutFlag::Hipri => None,
    };
    sending_refusal(chain, end, parts, ordinary)
}

/// Makes the message of a putpmsg and sends it down. Without a part nothing is sent (putpmsg(2)).
///
/// To be called where the end is there, and the chain is not broken. Fails only when memory runs out, and not
/// where nothing is sent: nothing is changed, or the chain breaks.
pub fn putpmsg<M: ModuleOf>(
    chain: &mut Chain<M>,
    end: End,
    parts: Parts,
    band: u8,
    flag: PutFlag,
) -> Result<Reply, ChainFault>
    requires there { is_there chain.old.image (Spots.Down end 1) ≡ true }
    requires whole { chain.old.image.broken ≡ false }
    ensures reply { IfOk result (λ reply. reply ≡ Replies.Putpmsg) }
    ensures image { IsSent M.Kind.means chain.old end (putpmsg_sent parts band flag) result chain.new }
    ensures refused { NotSent M.Kind.means chain.old end (putpmsg_sent parts band flag) result chain.new }
    ensures nothing { IsNone (putpmsg_sent parts band flag) → IsOk result }
{
    let m = match flag {
        PutFlag::Zero => None,
        PutFlag::Band => ordinary_message(band, parts),
        PutFlag::Hipri => high_message(parts),
    };
    send(chain, end, m)?;
    Ok(Reply::Putpmsg)
}

/// The first of a write's own refusals that holds: ERANGE for more than `MAX_DATA` bytes, ENXIO for
/// an end that is hung up, and EAGAIN where band 0 is full in the first write queue (write(2)).
pub fn write_refusal<M: ModuleOf>(chain: &Chain<M>, end: End, dat: &Bytes) -> Option<Refusal>
    ensures { result ≡ first_that_holds (write_refusals chain.now.image end dat.now) }
{
    if dat.len() > MAX_DATA {
        return Some(Refusal::TooLong);
    }
    waiting_refusal(chain, end, Some(0))
}

/// Sends the bytes of a write down as one message of band 0, an empty one too (write(2)).
///
/// To be called where the end is there, and the chain is not broken. Fails only when memory runs out: nothing
/// is changed, or the chain breaks.
pub fn write<M: ModuleOf>(chain: &mut Chain<M>, end: End, dat: Bytes) -> Result<Reply, ChainFault>
    requires there { is_there chain.old.image (Spots.Down end 1) ≡ true }
    requires whole { chain.old.image.broken ≡ false }
    ensures reply { IfOk result (λ reply. reply ≡ Replies.Write (length dat)) }
    ensures image { IsSent M.Kind.means chain.old end (Some (data_msg 0 dat)) result chain.new }
    ensures refused { NotSent M.Kind.means chain.old end (Some (data_msg 0 dat)) result chain.new }
{
    let len = dat.len() as u64;
    send(
        chain,
        end,
        ordinary_message(
            0,
            Parts {
                ctl: None,
                dat: Some(dat),
            },
        ),
    )?;
    Ok(Reply::Write { len })
}
