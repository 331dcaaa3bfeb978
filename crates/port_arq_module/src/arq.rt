//! The object of the modules.
ghost use Rattle.std.specs.Prelude.{◌≡◌, ◌<◌, ◌≤◌, is_ok, is_none, IfOk, IfErr, Some};
ghost use Rattle.strm_module.specs.Shape.{make_fault, new_shape};
ghost use Rattle.port_arq.specs.Peer.{fresh};
ghost use Rattle.port_arq_module.specs.declared.kinds.ArqKind.TheVariants as ArqKind;

use crate::kinds::ArqKind as Kinds;
use port_arq::{MOST_WINDOW, Peer};
use strm_module::{Instance, Kind, MakeFault, ModuleOf, Shape};

/// An object that acts by its shape and has no state of its own, for acknowledged links and for the built-in
/// kinds in the same chain.
#[derive(Debug, Drop)]
pub struct ByShape;

impl ModuleOf for ByShape {
    type Kind = Kinds;
}

impl ByShape {
    /// A module that is an end of an acknowledged link, with a queue on each side that has marks. It wants a
    /// write queue, since its service sends the frames. At most `window` messages, 1 to `MOST_WINDOW`, wait
    /// for an acknowledgement, and its timer runs out after `interval` ticks, 1 or more. Takes no memory.
    ///
    /// Refused for the name first, then for the marks of either side.
    pub fn arq(
        serial: u64,
        name: &[u8],
        rd: Option<(u32, u32)>,
        wr: Option<(u32, u32)>,
        window: usize,
        interval: u32,
    ) -> Result<Instance<ByShape>, MakeFault>
        requires least { 0 < window }
        requires most { window ≤ MOST_WINDOW }
        requires interval { 0 < interval }
        ensures ok { IfOk result (λ it. it ≡ new_shape serial name.now rd wr (ArqKind.Arq (fresh window interval))) }
        ensures err { IfErr result (λ fault. make_fault name.now rd wr ≡ Some fault) }
        ensures variant { is_ok result ≡ is_none (make_fault name.now rd wr) }
    {
        let peer = Peer::new(window, interval);
        let shape = Shape::new(serial, name, rd, wr, Kinds::Arq { peer })?;
        Ok(Instance::new(shape, ByShape))
    }

    /// A module of a built-in kind, for a chain with acknowledged links. Takes no memory.
    ///
    /// Refused for the name first, then for the marks of either side.
    pub fn builtin(
        serial: u64,
        name: &[u8],
        rd: Option<(u32, u32)>,
        wr: Option<(u32, u32)>,
        kind: Kind,
    ) -> Result<Instance<ByShape>, MakeFault>
        ensures ok { IfOk result (λ it. it ≡ new_shape serial name.now rd wr (ArqKind.Builtin kind)) }
        ensures err { IfErr result (λ fault. make_fault name.now rd wr ≡ Some fault) }
        ensures variant { is_ok result ≡ is_none (make_fault name.now rd wr) }
    {
        let shape = Shape::new(serial, name, rd, wr, Kinds::Builtin { kind })?;
        Ok(Instance::new(shape, ByShape))
    }
}
