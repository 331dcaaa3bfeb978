//! The object of the modules.
ghost use Rattle.std.specs.Prelude.{◌≡◌, [], is_ok, is_none, IfOk, IfErr, Some};
ghost use Rattle.strm_module.specs.Shape.{make_fault, new_shape};
ghost use Rattle.port_slip.specs.declared.kinds.SlipKind.TheVariants as SlipKind;

use crate::kinds::SlipKind as Kinds;
use std::alloc::Global;
use strm_module::{Instance, Kind, MakeFault, ModuleOf, Shape};
use strm_msg::Bytes;

/// An object that acts by its shape and has no state of its own, for SLIP and for the built-in kinds in the
/// same chain.
#[derive(Debug, Drop)]
pub struct ByShape;

impl ModuleOf for ByShape {
    type Kind = Kinds;
}

impl ByShape {
    /// A SLIP module that keeps nothing yet, with a queue on each side that has marks. Nothing has come, so
    /// `alloc` is not used yet. Takes no memory.
    ///
    /// Refused for the name first, then for the marks of either side.
    pub fn slip(
        alloc: Global,
        serial: u64,
        name: &[u8],
        rd: Option<(u32, u32)>,
        wr: Option<(u32, u32)>,
    ) -> Result<Instance<ByShape>, MakeFault>
        ensures ok { IfOk result (λ it. it ≡ new_shape serial name.now rd wr (SlipKind.Slip [] 0)) }
        ensures err { IfErr result (λ fault. make_fault name.now rd wr ≡ Some fault) }
        ensures variant { is_ok result ≡ is_none (make_fault name.now rd wr) }
    {
        let kept = Bytes::empty();
        let shape = Shape::new(serial, name, rd, wr, Kinds::Slip { kept, band: 0 })?;
        Ok(Instance::new(shape, ByShape))
    }

    /// A module of a built-in kind, for a chain with SLIP. Takes no memory.
    ///
    /// Refused for the name first, then for the marks of either side.
    pub fn builtin(
        serial: u64,
        name: &[u8],
        rd: Option<(u32, u32)>,
        wr: Option<(u32, u32)>,
        kind: Kind,
    ) -> Result<Instance<ByShape>, MakeFault>
        ensures ok { IfOk result (λ it. it ≡ new_shape serial name.now rd wr (SlipKind.Builtin kind)) }
        ensures err { IfErr result (λ fault. make_fault name.now rd wr ≡ Some fault) }
        ensures variant { is_ok result ≡ is_none (make_fault name.now rd wr) }
    {
        let shape = Shape::new(serial, name, rd, wr, Kinds::Builtin { kind })?;
        Ok(Instance::new(shape, ByShape))
    }
}
