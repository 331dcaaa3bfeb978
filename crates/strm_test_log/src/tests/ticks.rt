//! Modules that count ticks, and owe a message when they have counted enough.
use super::{check, stream_over};
use std::alloc::Global;
use std::process::Abort;
use strm_head::{Answer, Driver, Refusal, Reply, Request, Stream};
use strm_module::{BoxedModule, Instance, Kinds, ModuleOf, Outs, Shape, Turn, pass_on};
use strm_msg::{BoxedMessage, End, Message, NoMem, Side};

/// The ticks after which a message is owed.
const INTERVAL: u32 = 3;

/// A kind that passes everything on, and sends one byte down when so many ticks have passed.
#[derive(Debug, Drop, PartialEq, Eq)]
struct Beacon {
    /// The ticks that are left until the next message is owed.
    left: u32,
    /// Whether one is owed.
    owes: bool,
}

impl Kinds for Beacon {
    ghost use Rattle.std.specs.Prelude.{if◌then◌else◌, ◌&&◌, ◌-◌, not, nat_le, true, false, Some, [], ◌∷◌};
    ghost use Rattle.strm_msg.specs.Message.{data_msg};
    ghost use Rattle.strm_msg.specs.declared.words.Side.TheVariants.{Wr};
    ghost use Rattle.strm_module.specs.Kinds.{passed_on, kept, is_up};
    ghost use Rattle.strm_module.specs.declared.turn.Turn.TheVariants.{Serves, Sends};

    ghost means = { record {
      acts = λ kind side m. passed_on kind side m;
      turn = λ kind side. if kind.owes && not (is_up side) then Sends (Some 0) else Serves;
      own = λ kind side. if is_up side then kept kind else passed_on (record kind { owes = false }) Wr (data_msg 0 (116 ∷ []));
      answers = λ kind side. false;
      expire = λ kind ticks. if nat_le kind.left ticks then record kind { left = 3; owes = true } else record kind { left = kind.left - ticks };
    } };

    fn process(&mut self, _: Global, side: Side, m: BoxedMessage) -> Result<Outs, NoMem> {
        Ok(pass_on(side, m))
    }

    fn turn(&self, side: Side) -> Turn {
        match side {
            Side::Wr if self.owes => Turn::Sends { band: Some(0) },
            _ => Turn::Serves,
        }
    }

    fn own(&mut self, alloc: Global, side: Side) -> Result<Outs, NoMem> {
        match side {
            Side::Rd => Ok(Outs::new()),
            Side::Wr => {
                let m = BoxedMessage::new(alloc, Message::of_data(alloc, 0, b"t")?)?;
                self.owes = false;
                Ok(pass_on(Side::Wr, m))
            }
        }
    }

    fn answers(&self, _: Side) -> bool {
        false
    }

    fn expire(&mut self, ticks: u32) {
        if self.left <= ticks {
            self.left = INTERVAL;
            self.owes = true;
        } else {
            self.left = self.left - ticks;
        }
    }

    fn copy(&self, _: Global) -> Result<Beacon, NoMem> {
        Ok(Beacon {
            left: self.left,
            owes: self.owes,
        })
    }
}

/// The object of such a module. It acts by its shape.
#[derive(Drop)]
struct ByShape;

impl ModuleOf for ByShape {
    type Kind = Beacon;
}

/// Ticks at an end, whether they are refused, and the messages at the head of end B afterwards.
type Row = (End, u32, Option<Refusal>, u64);

/// On a loop with two such modules on end A, which send down to the head of end B.
const ROWS: &[Row] = &[
    (End::A, 2, None, 0),
    (End::A, 0, Some(Refusal::Invalid), 0),
    (End::A, 1, None, 2),
    (End::B, 3, None, 2),
    (End::A, 7, None, 4),
    (End::A, 2, None, 4),
    (End::A, 2, None, 6),
];

/// A module of this serial, with a write queue.
fn module(rt: &impl Abort, alloc: Global, serial: u64) -> BoxedModule<ByShape> {
    let kind = Beacon {
        left: INTERVAL,
        owes: false,
    };
    let shape = Shape::new(serial, b"beacon", None, Some((8, 2)), kind);
    let shape = shape.expect(rt, "a good name");
    BoxedModule::new(alloc, Instance::new(shape, ByShape)).expect(rt, "no memory")
}

/// Whether ticks are answered as the row has it, and leave as many messages.
fn has_passed(stream: &mut Stream<ByShape>, (end, ticks, refused, messages): Row) -> bool {
    let ticked = stream.apply(end, Request::Tick { ticks }).answer;
    let is_so = match refused {
        None => ticked == Answer::Done(Reply::Tick),
        Some(refusal) => ticked == Answer::Refused(refusal),
    };
    match stream.apply(End::B, Request::Nread).answer {
        Answer::Done(Reply::Nread { messages: m, .. }) => is_so && m == messages,
        _ => false,
    }
}

#[test]
fn ticks_pass_for_each_module_of_an_end(rt: HostRuntime) {
    let alloc = rt.alloc();
    let mut stream = stream_over(&rt, alloc, Driver::Loop);
    for serial in 0..2 {
        let instance = module(&rt, alloc, serial);
        let pushed = stream.apply(End::A, Request::Push { instance }).answer;
        check(
            &rt,
            ("push", serial as usize),
            pushed == Answer::Done(Reply::Push),
        );
    }
    for (at, row) in ROWS.iter().enumerate() {
        let is_so = has_passed(&mut stream, *row);
        check(&rt, ("tick", at), is_so);
    }
}
