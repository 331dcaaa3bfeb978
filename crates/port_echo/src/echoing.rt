//! A discipline that echoes the data that comes up, within a window.
ghost use Rattle.std.specs.Prelude.{◌≡◌, ◌++◌, [], Some, unwrap_or, is_ok, is_none, IfOk, IfErr, OnOk, OnErr};
ghost use Rattle.strm_module.specs.Shape.{make_fault, new_shape};
ghost use Rattle.strm_msg.specs.declared.words.Side.TheVariants as Side;
ghost use Rattle.strm_chain_ends.specs.Image.{Image};
ghost use Rattle.strm_chain_ends.specs.Order.{IsOrdered};
ghost use Rattle.strm_chain_settling.specs.Ends.{Ends};
ghost use Rattle.strm_chain_settling.specs.Orderly.{IsOrderly};
ghost use Rattle.port_echo.specs.Echoing.{owing, echoing_own, echoing, debt};
ghost use Rattle.port_echo.specs.declared.echoing.Echoing.{Echoing};

use std::alloc::Global;
use strm_module::{Instance, Kinds, MakeFault, ModuleOf, Outs, Shape, Turn, pass_on};
use strm_msg::{BoxedMessage, Bytes, Message, MsgKind, NoMem, Side as Sides};

/// The number of owed bytes from which no more data comes in.
pub const MOST_OWED: usize = 4;

/// The state of a discipline that echoes: data on its way up goes on, and is echoed down. While the echo
/// cannot leave, the discipline takes no more once it owes `MOST_OWED` bytes.
#[derive(Debug, Drop, PartialEq, Eq)]
pub struct Echoing {
    /// The bytes that are still to be echoed.
    pub owed: Bytes,
}

/// The bytes with those of a data part behind them.
fn joined(alloc: Global, bytes: &Bytes, part: &Option<Bytes>) -> Result<Bytes, NoMem>
    ensures { IfOk result (λ all. all ≡ bytes.now ++ unwrap_or part.now []) }
{
    let mut all = Vec::from_slice(alloc, bytes.as_slice())?;
    match part {
        Some(more) => all.extend_from_slice(more.as_slice())?,
        None => {}
    }
    Bytes::from_vec(alloc, all)
}

impl Echoing {
    /// Sends the bytes that are owed down.
    fn echo(&mut self, alloc: Global) -> Result<Outs, NoMem>
        ensures outs { IfOk result (λ outs. outs.items ≡ (echoing_own self.old.owed Side.Wr).outs) }
        ensures kept { OnOk result (self.new ≡ (echoing_own self.old.owed Side.Wr).kind) }
        ensures err { OnErr result (self.new ≡ self.old) }
    {
        let m = BoxedMessage::new(alloc, Message::of_bytes(0, self.owed.copy()?))?;
        self.owed = Bytes::empty();
        Ok(pass_on(Sides::Wr, m))
    }
}

impl Kinds for Echoing {
    ghost use Rattle.port_echo.specs.Echoing.{echoing};

    ghost means = { echoing };

    fn process(&mut self, alloc: Global, side: Sides, m: BoxedMessage) -> Result<Outs, NoMem> {
        match (side, m.kind) {
            (Sides::Rd, MsgKind::MData) => self.owed = joined(alloc, &self.owed, &m.dat)?,
            _ => {}
        }
        Ok(pass_on(side, m))
    }

    fn turn(&self, side: Sides) -> Turn {
        let owed = self.owed.as_slice().len();
        match side {
            Sides::Rd if owed >= MOST_OWED => Turn::Shut,
            Sides::Wr if owed > 0 => Turn::Sends { band: Some(0) },
            _ => Turn::Serves,
        }
    }

    fn own(&mut self, alloc: Global, side: Sides) -> Result<Outs, NoMem> {
        match side {
            Sides::Rd => Ok(Outs::new()),
            Sides::Wr => self.echo(alloc),
        }
    }

    fn answers(&self, side: Sides) -> bool {
        match side {
            Sides::Rd => true,
            Sides::Wr => false,
        }
    }

    fn expire(&mut self, _ticks: u32) {}

    fn copy(&self, alloc: Global) -> Result<Echoing, NoMem> {
        Ok(Echoing {
            owed: self.owed.copy()?,
        })
    }
}

/// An object that acts by its shape and has no state of its own.
#[derive(Debug, Drop)]
pub struct ByShape;

impl ModuleOf for ByShape {
    type Kind = Echoing;
}

impl ByShape {
    /// A discipline that owes nothing, with a queue of these marks on each side. Nothing has come, so `alloc`
    /// is not used yet. Takes no memory.
    ///
    /// Refused for the name first, then for the marks.
    pub fn echoing(
        alloc: Global,
        serial: u64,
        name: &[u8],
        marks: (u32, u32),
    ) -> Result<Instance<ByShape>, MakeFault>
        ensures ok { IfOk result (λ it. it ≡ new_shape serial name.now (Some marks) (Some marks) (owing [])) }
        ensures err { IfErr result (λ fault. make_fault name.now (Some marks) (Some marks) ≡ Some fault) }
        ensures variant { is_ok result ≡ is_none (make_fault name.now (Some marks) (Some marks)) }
    {
        let kind = Echoing {
            owed: Bytes::empty(),
        };
        let shape = Shape::new(serial, name, Some(marks), Some(marks), kind)?;
        Ok(Instance::new(shape, ByShape))
    }
}

/// States laws, and does nothing: each echo makes the discipline owe less, and no message changes on which
/// sides it answers. So settling ends on each ordered stream: over a line and a wire, and on one end of a
/// loop.
pub fn echoing_settles()
    ensures orderly { IsOrderly echoing debt }
    ensures ends { (image : Image Echoing) → IsOrdered echoing image → Ends echoing image }
{}
