//! The kinds of module of a program with a terminal.
use crate::ldterm::Ldterm;
use std::alloc::Global;
use strm_module::{Kind, Kinds, Outs, Turn};
use strm_msg::{BoxedMessage, NoMem, Side};

/// A kind of module, with its state: a terminal's line discipline, or one of the framework's built-in kinds.
#[derive(Debug, Drop, PartialEq, Eq)]
pub enum Discipline {
    /// One of the built-in kinds, with its meaning.
    Builtin {
        /// The built-in kind, with its state.
        kind: Kind,
    },
    /// A terminal's line discipline (ldterm(7M)).
    Terminal {
        /// What it keeps.
        ldterm: Ldterm,
    },
}

impl Kinds for Discipline {
    ghost use Rattle.port_ldterm_module.specs.Ldterm.{discipline};

    ghost means = { discipline };

    fn process(&mut self, alloc: Global, side: Side, m: BoxedMessage) -> Result<Outs, NoMem> {
        match self {
            Discipline::Builtin { kind } => kind.process(alloc, side, m),
            Discipline::Terminal { ldterm } => ldterm.process(alloc, side, m),
        }
    }

    fn turn(&self, side: Side) -> Turn {
        match self {
            Discipline::Builtin { kind } => kind.turn(side),
            Discipline::Terminal { ldterm } => ldterm.turn(side),
        }
    }

    fn own(&mut self, alloc: Global, side: Side) -> Result<Outs, NoMem> {
        match self {
            Discipline::Builtin { kind } => kind.own(alloc, side),
            Discipline::Terminal { ldterm } => ldterm.own(alloc, side),
        }
    }

    fn answers(&self, side: Side) -> bool {
        match (self, side) {
            (Discipline::Builtin { kind }, _) => kind.answers(side),
            (Discipline::Terminal { .. }, Side::Rd) => true,
            (Discipline::Terminal { .. }, Side::Wr) => false,
        }
    }

    fn expire(&mut self, _ticks: u32) {}

    fn copy(&self, alloc: Global) -> Result<Discipline, NoMem> {
        Ok(match self {
            Discipline::Builtin { kind } => Discipline::Builtin {
                kind: kind.copy(alloc)?,
            },
            Discipline::Terminal { ldterm } => Discipline::Terminal {
                ldterm: ldterm.copy()?,
            },
        })
    }
}
