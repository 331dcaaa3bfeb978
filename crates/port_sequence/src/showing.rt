//! The receipts by which a caller shows that its calls are in the history.
use crate::kinds::{ByShape, Sequence};
use crate::saying::say_entry;
use std::alloc::Global;
use std::sync::Wait;
use strm_head::{Driver, Request};
use strm_module::BoxedModule;
use strm_msg::{Bytes, End};
use strm_shared::{AnyCalls, Ended, Ring, Seat, Shared};
use strm_shared_log::{Call, Called, Receipt, Setup};

/// The setup of an echo stream.
const ECHO: Setup = Setup {
    driver: Driver::Echo,
    head: (16, 4),
    drv: (16, 4),
    ring: 0,
};

/// The receipt of a call that writes these bytes.
fn write<R: Wait>(
    rt: &R,
    alloc: Global,
    shared: &Shared<ByShape>,
    seat: &mut Seat,
    bytes: &[u8],
) -> Option<Receipt<Sequence>> {
    let dat = Bytes::from_slice(alloc, bytes).ok()?;
    let request: Request<BoxedModule<ByShape>> = Request::Write { dat };
    if seat.number() != shared.number() {
        drop(request);
        return None;
    }
    let end = End::A;
    match shared.call(rt, seat, Call { end, request }) {
        Called::Done { receipt, .. } => receipt,
        Called::NoRoom(_) => None,
    }
}

/// Prints whose call a receipt is for, and whether the history holds it.
fn say_receipt<R: Print>(
    rt: &R,
    ended: &Ended<ByShape>,
    receipt: &Receipt<Sequence>,
) -> Option<()> {
    let holds = if ended.holds(receipt) {
        "has"
    } else {
        "has not"
    };
    println!(rt;
        "call {} of caller {}, which the history {holds}:",
        receipt.number(),
        receipt.caller()
    )
    .ok()?;
    say_entry(rt, receipt.entry())
}

/// Makes two calls on a stream that callers share. When it has ended, prints whether its history holds their
/// receipts.
pub fn show_receipts<R: Print + Wait>(rt: &R, alloc: Global) -> Option<()> {
    let ring = Ring::new(alloc, ECHO).ok()?;
    let (shared, mut seats, _) = Shared::<ByShape, AnyCalls>::new(alloc, 0, 1, ring).ok()?;
    let seat = seats.first_mut()?;
    let first = write(rt, alloc, &shared, seat, b"one")?;
    let second = write(rt, alloc, &shared, seat, b"two")?;
    let ended = shared.end(seats, None).ok()?;
    say_receipt(rt, &ended, &second)?;
    say_receipt(rt, &ended, &first)
}
