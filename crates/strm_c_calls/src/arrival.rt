//! The message that is handed in from a line or a wire.
ghost use Rattle.std.specs.Prelude.{◌≡◌, true, IfSome, pos};
ghost use Rattle.strm_msg.specs.Kind.{is_from_line};
ghost use Rattle.strm_c_calls.specs.Arrival as arrivals;
ghost use Rattle.strm_c_calls.specs.OnHandle.{ArrivesOn};

use crate::arguments::part_of;
use crate::handle::Handle;
use crate::judged::are_too_long;
use std::alloc::Global;
use strm_c_numbers::{message_of, number_of};
use strm_head::{Arrived, Stream};
use strm_head_calls::Refusal;
use strm_module::Plain;
use strm_msg::{End, Message};

/// The code of the outcome of a message.
fn arrived_code(arrived: &Arrived) -> i32
    ensures { result ≡ pos (arrivals.arrived_code arrived.now) }
{
    match arrived {
        Arrived::Taken { .. } => 0,
        Arrived::Full(_) => 11,
        Arrived::NoMem(_) => 63,
        Arrived::Broke => 63,
    }
}

/// Hands a message in to the stream of an open handle. Where there is no message, nothing comes in.
fn hand_in(alloc: Global, s: &mut Handle, message: Option<Message>) -> i32
    requires open { s.old.is_open ≡ true }
    requires line { IfSome message (λ m. is_from_line m.kind ≡ true) }
    ensures open { s.new.is_open ≡ true }
    ensures lands { arrivals.HandsIn s.old.held.stream message result s.new.held.stream }
{
    let Some(message) = message else {
        return 22;
    };
    let mut held = s.take(alloc);
    let arrived = held.stream.arrive(message);
    s.put(held);
    let code = arrived_code(&arrived);
    drop(arrived);
    code
}

/// The first refusal that a message from a line or a wire has whatever its bytes are.
fn arrival_refusal(
    stream: &Stream<Plain>,
    has_ctl: bool,
    ctl: &[u8],
    has_dat: bool,
    dat: &[u8],
) -> Option<Refusal>
    ensures { result ≡ arrivals.arrival_refusal stream.now has_ctl ctl.now has_dat dat.now }
{
    if !stream.is_open(End::A) {
        return Some(Refusal::Closed);
    }
    if stream.is_broken() {
        return Some(Refusal::Broken);
    }
    if !stream.driver().is_line() {
        return Some(Refusal::Invalid);
    }
    if are_too_long(has_ctl, ctl, has_dat, dat) {
        return Some(Refusal::TooLong);
    }
    None
}

/// Hands the message of these numbers and bytes in from a line or a wire to the stream of an open handle. Its
/// parts are copied only if no refusal holds whatever their bytes are.
pub fn arrive(
    alloc: Global,
    s: &mut Handle,
    kind: u32,
    band: u8,
    has_ctl: bool,
    ctl: &[u8],
    has_dat: bool,
    dat: &[u8],
    number: u32,
) -> i32
    requires { s.old.is_open ≡ true }
    ensures open { s.new.is_open ≡ true }
    ensures lands { ArrivesOn s.old kind band has_ctl ctl.now has_dat dat.now number result s.new }
{
    let held = s.take(alloc);
    let refusal = arrival_refusal(&held.stream, has_ctl, ctl, has_dat, dat);
    s.put(held);
    if let Some(refusal) = refusal {
        return number_of(refusal.errno());
    }
    let Ok(ctl) = part_of(alloc, has_ctl, ctl) else {
        return 63;
    };
    let Ok(dat) = part_of(alloc, has_dat, dat) else {
        drop(ctl);
        return 63;
    };
    let message = message_of(kind, band, ctl, dat, number);
    hand_in(alloc, s, message)
}
