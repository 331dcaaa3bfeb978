//! The steps of a table. Each makes its call, and returns whether the answer is the expected one.
use super::{Call, Sample, TOP_A, Way, are_same, boxed_message, is_taken, message};
use std::process::Abort;
use strm_chain::{Chain, ChainFault, Driver, Place, Record, Spot};
use strm_module::{BoxedModule, ModuleOf};
use strm_msg::{Class, End, Errno, Prot, ReadMode};

/// Hands a message in, and returns whether the answer is this one.
fn puts<M: ModuleOf>(
    rt: &impl Abort,
    chain: &mut Chain<M>,
    spot: Spot,
    sample: Sample,
    want: Result<(), ChainFault>,
) -> bool {
    let m = message(rt, chain.alloc(), sample);
    assert!(rt; chain.has_spot(spot));
    chain.deliver(spot, m) == want
}

/// Serves a place that may move, and returns whether the answer is this one.
fn serves<M: ModuleOf>(chain: &mut Chain<M>, place: Place, want: Result<(), ChainFault>) -> bool {
    chain.may(place) && chain.serve_one(place) == want
}

/// Takes the first message of the head of an end, and returns whether it is this one.
fn takes<M: ModuleOf>(rt: &impl Abort, chain: &mut Chain<M>, end: End, sample: Sample) -> bool {
    let want = message(rt, chain.alloc(), sample);
    are_same(chain.take_head(end), Some(want))
}

/// Takes the first message that was sent down to a wire, and returns whether it is this one.
fn takes_out<M: ModuleOf>(rt: &impl Abort, chain: &mut Chain<M>, sample: Sample) -> bool {
    let want = message(rt, chain.alloc(), sample);
    assert!(rt; chain.driver().is_wire());
    are_same(chain.take_out(), Some(want))
}

/// Whether no message is there that was sent down to a wire.
fn gives_nothing<M: ModuleOf>(chain: &mut Chain<M>) -> bool {
    chain.driver().is_wire() && are_same(chain.take_out(), None)
}

/// Serves until no place is enabled, and returns whether these are the moves and that many the looks.
fn settles<M: ModuleOf>(chain: &mut Chain<M>, moves: &[Place], looks: u64) -> bool {
    match chain.settle() {
        Ok(settled) => settled.moves.as_slice() == moves && settled.looks.count() == looks,
        Err(_) => false,
    }
}

/// Hands an ordinary message in from the line.
fn comes<M: ModuleOf>(rt: &impl Abort, chain: &mut Chain<M>, sample: Sample) -> bool {
    let m = boxed_message(rt, chain.alloc(), sample);
    assert!(rt; chain.driver().is_line());
    assert!(rt; m.class() == Class::Ordinary);
    is_taken(chain.line_put(m))
}

/// Makes room for a message, and puts it back.
fn puts_back<M: ModuleOf>(rt: &impl Abort, chain: &mut Chain<M>, sample: Sample) -> bool {
    let has_room = chain.head_room(End::A, 0).is_ok();
    let line_has_room = chain.driver().is_line() && chain.line_room(0).is_ok();
    let m = boxed_message(rt, chain.alloc(), sample);
    let is_back = is_taken(chain.put_back_head(End::A, m));
    has_room && line_has_room && is_back
}

/// Takes the answer that has come, and returns whether it is this one.
fn ends<M: ModuleOf>(rt: &impl Abort, chain: &mut Chain<M>, sample: Sample) -> bool {
    let want = message(rt, chain.alloc(), sample);
    are_same(chain.end_ioctl(End::A), Some(want))
}

/// Does the step with a message.
fn moves<M: ModuleOf>(rt: &impl Abort, chain: &mut Chain<M>, way: Way, sample: Sample) -> bool {
    match way {
        Way::Send(end) => puts(rt, chain, Spot::top(end), sample, Ok(())),
        Way::Deliver(spot) => puts(rt, chain, spot, sample, Ok(())),
        Way::Fails(spot, fault) => puts(rt, chain, spot, sample, Err(fault)),
        Way::Comes => comes(rt, chain, sample),
        Way::Take(end) => takes(rt, chain, end, sample),
        Way::TakeOut => takes_out(rt, chain, sample),
        Way::PutBack => puts_back(rt, chain, sample),
        Way::Answer => ends(rt, chain, sample),
    }
}

/// Makes a call that hands a message in, moves it or takes it.
pub(super) fn acts<M: ModuleOf>(rt: &impl Abort, chain: &mut Chain<M>, call: Call) -> bool {
    match call {
        Call::Write(bytes) => puts(rt, chain, TOP_A, Sample::Data(0, bytes), Ok(())),
        Call::Read(bytes) => takes(rt, chain, End::A, Sample::Data(0, bytes)),
        Call::With(way, sample) => moves(rt, chain, way, sample),
        Call::Serve(place) => serves(chain, place, Ok(())),
        Call::ServeFails(place, fault) => serves(chain, place, Err(fault)),
        Call::Settle(moves, looks) => settles(chain, moves, looks),
        Call::SettleFails(fault) => chain.settle().err() == Some(fault),
        _ => sets(chain, call),
    }
}

/// Takes an id, and returns whether it is this one.
fn begins<M: ModuleOf>(chain: &mut Chain<M>, want: u64) -> bool {
    chain.state(End::A).pending.is_none() && chain.begin_ioctl(End::A) == Some(want)
}

/// Gives the id back that was taken last.
fn undoes<M: ModuleOf>(chain: &mut Chain<M>) -> bool {
    let state = chain.state(End::A);
    let is_unanswered = state.pending.is_some() && state.kept.is_none();
    if is_unanswered {
        chain.undo_ioctl(End::A);
    }
    is_unanswered
}

/// The serial of a module that was taken out.
fn serial_of<M: ModuleOf>(taken: &Option<BoxedModule<M>>) -> Option<u64> {
    match taken {
        Some(instance) => Some(instance.shape().serial),
        None => None,
    }
}

/// Takes the topmost module out.
fn removes<M: ModuleOf>(chain: &mut Chain<M>) -> Option<u64> {
    let taken = chain.remove(End::A);
    serial_of(&taken)
}

fn breaks_off<M: ModuleOf>(chain: &mut Chain<M>) -> bool {
    chain.break_off();
    true
}

fn sets_mode<M: ModuleOf>(chain: &mut Chain<M>, end: End, mode: ReadMode, prot: Prot) -> bool {
    chain.set_mode(end, mode, prot);
    true
}

/// Makes a call that changes something else.
fn sets<M: ModuleOf>(chain: &mut Chain<M>, call: Call) -> bool {
    match call {
        Call::BreakOff => breaks_off(chain),
        Call::SetMode(end, mode, prot) => sets_mode(chain, end, mode, prot),
        Call::Begins(id) => begins(chain, id),
        Call::Undoes => undoes(chain),
        Call::NoAnswer => are_same(chain.end_ioctl(End::A), None),
        Call::NothingOut => gives_nothing(chain),
        Call::Remove(want) => removes(chain) == want,
        _ => shows(chain, call),
    }
}

/// Whether any place of an end is enabled, that of its driver or those of eight modules.
fn any_enabled<M: ModuleOf>(chain: &Chain<M>, end: End) -> bool {
    let mut is_any = chain.is_enabled(Place::Drv { end });
    for i in 1..9_u8 {
        is_any |= chain.is_enabled(Place::Wr { end, i });
        is_any |= chain.is_enabled(Place::Rd { end, i });
    }
    is_any
}

/// The queues of an end that hold a message, where these are the two modules.
fn held<M: ModuleOf>(chain: &Chain<M>, end: End, i: u8, j: u8) -> [bool; 6] {
    [
        chain.may(Place::Wr { end, i }),
        chain.may(Place::Wr { end, i: j }),
        chain.may(Place::Drv { end }),
        chain.may(Place::Rd { end, i }),
        chain.may(Place::Rd { end, i: j }),
        chain.head(end).len() > 0,
    ]
}

/// Makes a call that looks at queues and places.
fn shows<M: ModuleOf>(chain: &Chain<M>, call: Call) -> bool {
    match call {
        Call::May(place, want) => chain.may(place) == want,
        Call::Enabled(place, want) => chain.is_enabled(place) == want,
        Call::NoneEnabled => !any_enabled(chain, End::A) && !any_enabled(chain, End::B),
        Call::HeadLen(end, want) => chain.head(end).len() == want,
        Call::HeadHeld(end, want) => chain.head(end).held(0) == want,
        Call::FullAhead(end, want) => chain.full_ahead(end, 0) == want,
        Call::LineFull(want) => chain.driver().is_line() && chain.line_full(0) == want,
        Call::Holds(end, i, want) => held(chain, end, i, i.saturating_add(1)) == want,
        Call::HasSpot(spot, want) => chain.has_spot(spot) == want,
        _ => tells(chain, call),
    }
}

/// Makes a call that looks at something else.
fn tells<M: ModuleOf>(chain: &Chain<M>, call: Call) -> bool {
    match call {
        Call::Count(end, want) => chain.count(end) == want,
        Call::IsOpen(end, want) => chain.is_open(end) == want,
        Call::IsDriver(want) => chain.driver() == want,
        Call::IsBroken(want) => chain.is_broken() == want,
        Call::Serial(i, want) => serial(chain, i) == want,
        Call::HasRoom(end, want) => chain.has_room(end) == want,
        Call::Hung(end, want) => chain.state(end).hung == want,
        Call::Errs(end, rd, wr) => has_errors(chain.state(end), rd, wr),
        Call::Mode(end, mode, prot) => has_mode(chain.state(end), mode, prot),
        Call::Ids(end, next, pending) => has_ids(chain.state(end), next, pending),
        _ => false,
    }
}

fn has_errors(state: &Record, rd: Option<Errno>, wr: Option<Errno>) -> bool {
    state.rd_errno == rd && state.wr_errno == wr
}

fn has_mode(state: &Record, mode: ReadMode, prot: Prot) -> bool {
    state.mode == mode && state.prot == prot
}

fn has_ids(state: &Record, next: Option<u64>, pending: Option<u64>) -> bool {
    state.next == next && state.pending == pending
}

/// The serial of a module of end A.
fn serial<M: ModuleOf>(chain: &Chain<M>, i: u8) -> Option<u64> {
    match chain.shape(End::A, i) {
        Some(shape) => Some(shape.serial),
        None => None,
    }
}
