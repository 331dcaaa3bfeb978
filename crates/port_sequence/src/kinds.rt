//! The discipline: its kind, with its state, and its object.
ghost use Rattle.std.specs.Prelude.{◌≡◌, [], IfOk, IfErr, OnOk, OnErr, is_ok, is_none, None, Some, unwrap_or};
ghost use Rattle.strm_msg.specs.declared.kind.MsgKind.TheVariants.{MData};
ghost use Rattle.strm_module.specs.Shape.{make_fault, new_shape};
ghost use Rattle.port_sequence.specs.Sequence.{numbered_action, judged_action, fresh};

use std::alloc::Global;
use strm_module::{Instance, Kinds, MakeFault, ModuleOf, Outs, Shape, Turn, pass_on, reply};
use strm_msg::{BoxedMessage, Bytes, Message, MsgKind, NoMem, Side};
use strm_shared_log::SameKind;

/// The state of a discipline that numbers data messages. Those on their way down get one byte in front, 0 to
/// 255 and then again. Those on their way up are judged by their numbers: they go on without them, and the
/// numbers that were skipped before them count as lost. An ioctl of command 1 is answered with that count.
#[derive(Debug, Drop, PartialEq, Eq)]
pub struct Sequence {
    /// The number of the next message on its way down.
    pub down: u8,
    /// The number that is expected of the next message on its way up.
    pub up: u8,
    /// The number of messages that were lost, up to the greatest `u64`.
    pub lost: u64,
}

/// The bytes of a data part.
fn bytes_of(part: &Option<Bytes>) -> &[u8]
    ensures { result.now ≡ unwrap_or part.now [] }
{
    match part {
        Some(bytes) => bytes.as_slice(),
        None => &[],
    }
}

impl Sequence {
    /// Puts the next number in front of data on its way down.
    fn number(&mut self, alloc: Global, m: BoxedMessage) -> Result<Outs, NoMem>
        requires { m.kind ≡ MData }
        ensures outs { IfOk result (λ outs. outs.items ≡ (numbered_action self.old m).outs) }
        ensures kept { OnOk result (self.new ≡ (numbered_action self.old m).kind) }
        ensures err { OnErr result (self.new ≡ self.old) }
    {
        let mut bytes = Vec::from_slice(alloc, &[self.down])?;
        bytes.extend_from_slice(bytes_of(&m.dat))?;
        let dat = Some(Bytes::from_vec(alloc, bytes)?);
        self.down = self.down.wrapping_add(1);
        Ok(pass_on(Side::Wr, m.with_dat(dat)))
    }

    /// Takes the number off data on its way up, if it has one.
    fn judge(&mut self, alloc: Global, m: BoxedMessage) -> Result<Outs, NoMem>
        ensures outs { IfOk result (λ outs. outs.items ≡ (judged_action self.old m (unwrap_or m.dat [])).outs) }
        ensures kept { OnOk result (self.new ≡ (judged_action self.old m (unwrap_or m.dat [])).kind) }
        ensures err { OnErr result (self.new ≡ self.old) }
    {
        let Some((number, rest)) = bytes_of(&m.dat).split_first() else {
            return Ok(pass_on(Side::Rd, m));
        };
        let rest = Bytes::from_slice(alloc, rest)?;
        let skipped = number.wrapping_sub(self.up);
        self.up = number.wrapping_add(1);
        self.lost = self.lost.saturating_add(u64::from(skipped));
        let dat = Some(rest);
        Ok(pass_on(Side::Rd, m.with_dat(dat)))
    }
}

impl Kinds for Sequence {
    ghost use Rattle.port_sequence.specs.Sequence.{sequence};

    ghost means = { sequence };

    fn process(&mut self, alloc: Global, side: Side, m: BoxedMessage) -> Result<Outs, NoMem> {
        match (side, m.kind) {
            (Side::Wr, MsgKind::MData) => self.number(alloc, m),
            (Side::Rd, MsgKind::MData) => self.judge(alloc, m),
            (Side::Wr, MsgKind::MIoctl { id, cmd: 1 }) => {
                Ok(reply(m.becoming(Message::of_ack(id, self.lost, None))))
            }
            _ => Ok(pass_on(side, m)),
        }
    }

    fn turn(&self, _side: Side) -> Turn {
        Turn::Serves
    }

    fn own(&mut self, _alloc: Global, _side: Side) -> Result<Outs, NoMem> {
        Ok(Outs::new())
    }

    fn answers(&self, _side: Side) -> bool {
        false
    }

    fn expire(&mut self, _ticks: u32) {}

    fn copy(&self, _alloc: Global) -> Result<Sequence, NoMem> {
        Ok(Sequence {
            down: self.down,
            up: self.up,
            lost: self.lost,
        })
    }
}

/// Whether two kinds are the same. A run needs this, to compare a history with the answers of its callers.
impl SameKind for Sequence {
    fn is_same(&self, other: &Sequence) -> bool {
        self.down == other.down && self.up == other.up && self.lost == other.lost
    }
}

/// An object that acts by its shape and has no state of its own.
#[derive(Debug, Drop)]
pub struct ByShape;

impl ModuleOf for ByShape {
    type Kind = Sequence;
}

impl ByShape {
    /// A module that has numbered and judged nothing yet, with a queue of these marks on its way down. Takes
    /// no memory.
    ///
    /// Refused for the name first, then for the marks.
    pub fn sequence(
        serial: u64,
        name: &[u8],
        wr: (u32, u32),
    ) -> Result<Instance<ByShape>, MakeFault>
        ensures ok { IfOk result (λ it. it ≡ new_shape serial name.now None (Some wr) fresh) }
        ensures err { IfErr result (λ fault. make_fault name.now None (Some wr) ≡ Some fault) }
        ensures variant { is_ok result ≡ is_none (make_fault name.now None (Some wr)) }
    {
        let kind = Sequence {
            down: 0,
            up: 0,
            lost: 0,
        };
        let shape = Shape::new(serial, name, None, Some(wr), kind)?;
        Ok(Instance::new(shape, ByShape))
    }
}
