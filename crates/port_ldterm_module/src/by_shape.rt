//! The object of the modules.
ghost use Rattle.std.specs.Prelude.{◌≡◌, is_ok, is_none, IfOk, IfErr, Some};
ghost use Rattle.strm_module.specs.Shape.{make_fault, new_shape};
ghost use Rattle.port_ldterm_module.specs.Ldterm.{fresh};
ghost use Rattle.port_ldterm_module.specs.declared.kinds.Discipline.TheVariants as Discipline;

use crate::kinds::Discipline as Kinds;
use crate::ldterm::Ldterm;
use port_termio::Modes;
use strm_module::{Instance, Kind, MakeFault, ModuleOf, Shape};

/// An object that acts by its shape and has no state of its own, for terminals and for the built-in kinds in
/// the same chain.
#[derive(Debug, Drop)]
pub struct ByShape;

impl ModuleOf for ByShape {
    type Kind = Kinds;
}

impl ByShape {
    /// A terminal's line discipline at which nothing was typed, with a queue of these marks on each side.
    /// Takes no memory.
    ///
    /// Refused for the name first, then for the marks.
    pub fn ldterm(
        serial: u64,
        name: &[u8],
        rd: (u32, u32),
        wr: (u32, u32),
        modes: Modes,
    ) -> Result<Instance<ByShape>, MakeFault>
        ensures ok { IfOk result (λ it. it ≡ new_shape serial name.now (Some rd) (Some wr) (Discipline.Terminal (fresh modes))) }
        ensures err { IfErr result (λ fault. make_fault name.now (Some rd) (Some wr) ≡ Some fault) }
        ensures variant { is_ok result ≡ is_none (make_fault name.now (Some rd) (Some wr)) }
    {
        let ldterm = Ldterm::new(modes);
        let shape = Shape::new(serial, name, Some(rd), Some(wr), Kinds::Terminal { ldterm })?;
        Ok(Instance::new(shape, ByShape))
    }

    /// A module of a built-in kind, for a chain with a terminal. Takes no memory.
    ///
    /// Refused for the name first, then for the marks of either side.
    pub fn builtin(
        serial: u64,
        name: &[u8],
        rd: Option<(u32, u32)>,
        wr: Option<(u32, u32)>,
        kind: Kind,
    ) -> Result<Instance<ByShape>, MakeFault>
        ensures ok { IfOk result (λ it. it ≡ new_shape serial name.now rd wr (Discipline.Builtin kind)) }
        ensures err { IfErr result (λ fault. make_fault name.now rd wr ≡ Some fault) }
        ensures variant { is_ok result ≡ is_none (make_fault name.now rd wr) }
    {
        let shape = Shape::new(serial, name, rd, wr, Kinds::Builtin { kind })?;
        Ok(Instance::new(shape, ByShape))
    }
}
