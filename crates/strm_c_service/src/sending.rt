//! The calls that send a message on from a module, and put one back.
ghost use Rattle.std.specs.Prelude.{◌≡◌, true, is_some, IfOk, Some, option_copied, option_map};
ghost use Rattle.strm_module.specs.Builtin.{builtin};
ghost use Rattle.strm_head.specs.Effects.{refusal_of};
ghost use Rattle.strm_head_calls.specs.declared.request.Request.TheVariants as Requests;
ghost use Rattle.strm_c_numbers.specs.Whole.{emptied};
ghost use Rattle.strm_c_calls.specs.Arguments.{part_argument};
ghost use Rattle.strm_c_calls.specs.OnHandle.{CallsOn, IsMadeOn};
ghost use Rattle.strm_c_calls.specs.Returned.{Nothing};
ghost use Rattle.strm_c_service.specs.Service as asks;

use crate::asked::name_of;
use std::alloc::Global;
use strm_c_calls::{Asked, Handle, call, part_of};
use strm_c_numbers::{Whole, emptied_message, end_of, side_of, whole_message};
use strm_head::Stream;
use strm_head_calls::{Name, Refusal, Request, ServiceCall};
use strm_module::Plain;
use strm_msg::{BoxedMessage, End, Message, NoMem, Side};

/// Where a message goes from a module that the program serves.
#[derive(Clone, Copy)]
pub enum Sending {
    /// On, past a side (putnext(9F)).
    On,
    /// Back into the queue of a side (putbq(9F)).
    Back,
}

impl Sending {
    /// The service call that sends a message so.
    fn call(self, m: BoxedMessage) -> ServiceCall
        ensures { result ≡ asks.call_of self m }
    {
        match self {
            Sending::On => ServiceCall::Putnext { m },
            Sending::Back => ServiceCall::Putbq { m },
        }
    }

    /// The refusal that this call would have. It looks at the kind and the band of the message alone.
    fn refusal(
        self,
        stream: &Stream<Plain>,
        end: End,
        name: &Name,
        side: Side,
        m: &Message,
    ) -> Option<Refusal>
        ensures { result ≡ refusal_of builtin stream.now end (Requests.Service name.now side (asks.call_of self m.now)) }
    {
        match self {
            Sending::On => stream.putnext_refusal(end, name, side, m),
            Sending::Back => stream.putbq_refusal(end, name, side, m),
        }
    }
}

/// The bytes of a part, if it is there.
fn slice_if(has: bool, bytes: &[u8]) -> Option<&[u8]>
    ensures { option_copied result ≡ part_argument has bytes.now }
{
    if has { Some(bytes) } else { None }
}

/// The message of these numbers and parts with no byte in its parts, if they make one.
fn bare_of(whole: &Whole, has_ctl: bool, ctl: &[u8], has_dat: bool, dat: &[u8]) -> Option<Message>
    ensures { result ≡ option_map (λ m. emptied m) (asks.message_argument whole.now has_ctl ctl.now has_dat dat.now) }
{
    emptied_message(whole, slice_if(has_ctl, ctl), slice_if(has_dat, dat))
}

/// The message of these numbers and copies of these parts, in a box. To be called where they make one. Fails
/// only when memory runs out.
fn copied(
    alloc: Global,
    whole: &Whole,
    has_ctl: bool,
    ctl: &[u8],
    has_dat: bool,
    dat: &[u8],
) -> Result<BoxedMessage, NoMem>
    requires { is_some (asks.message_argument whole.now has_ctl ctl.now has_dat dat.now) ≡ true }
    ensures { IfOk result (λ m. asks.message_argument whole.now has_ctl ctl.now has_dat dat.now ≡ Some m) }
{
    let ctl = part_of(alloc, has_ctl, ctl)?;
    let dat = part_of(alloc, has_dat, dat)?;
    BoxedMessage::new(alloc, whole_message(whole, ctl, dat).unwrap())
}

/// The service call of these arguments at an end of an open stream, or the answer in its place. The parts are
/// copied only where nothing else refuses it.
fn sent_of(
    alloc: Global,
    s: &mut Handle,
    end: u8,
    sending: Sending,
    name: &[u8],
    side: u32,
    whole: &Whole,
    has_ctl: bool,
    ctl: &[u8],
    has_dat: bool,
    dat: &[u8],
) -> Asked
    requires { s.old.is_open ≡ true }
    ensures open { s.new.is_open ≡ true }
    ensures same { s.new.held ≡ s.old.held }
    ensures made { IsMadeOn s.old end
        (asks.sent_of sending name.now side whole.now has_ctl ctl.now has_dat dat.now) result }
{
    let Some(bare) = bare_of(whole, has_ctl, ctl, has_dat, dat) else {
        return Err(Refusal::Invalid);
    };
    let Some(side) = side_of(side) else {
        return Err(Refusal::Invalid);
    };
    let Some(name) = name_of(name) else {
        return Err(Refusal::Invalid);
    };
    let Some(end) = end_of(end) else {
        return Err(Refusal::Closed);
    };
    let held = s.take(alloc);
    let refusal = sending.refusal(&held.stream, end, &name, side, &bare);
    s.put(held);
    if let Some(refusal) = refusal {
        return Err(refusal);
    }
    match copied(alloc, whole, has_ctl, ctl, has_dat, dat) {
        Ok(m) => Ok(Request::Service {
            name,
            side,
            call: sending.call(m),
        }),
        Err(_) => Err(Refusal::NoMemory),
    }
}

/// Sends a message on from a module that the program serves, or puts it back (putnext(9F), putbq(9F)).
pub fn send(
    alloc: Global,
    s: &mut Handle,
    end: u8,
    sending: Sending,
    name: &[u8],
    side: u32,
    whole: &Whole,
    has_ctl: bool,
    ctl: &[u8],
    has_dat: bool,
    dat: &[u8],
) -> i32
    requires { s.old.is_open ≡ true }
    ensures open { s.new.is_open ≡ true }
    ensures call { CallsOn s.old end
        (asks.sent_of sending name.now side whole.now has_ctl ctl.now has_dat dat.now) Nothing result s.new }
{
    let asked = sent_of(
        alloc, s, end, sending, name, side, whole, has_ctl, ctl, has_dat, dat,
    );
    call(alloc, s, end, asked)
}
