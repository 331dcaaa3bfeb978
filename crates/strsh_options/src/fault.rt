//! The reasons for which the program prints no transcript.
ghost use Rattle.std.specs.Prelude.{◌≡◌};
ghost use Rattle.strm_run_input.specs.declared.fault.RunFault.TheVariants as RunFaults;
ghost use Rattle.strsh_options.specs.declared.fault.Fault.TheVariants as Faults;
ghost use Rattle.strsh_options.specs.Fault.{EndsWith, IsFaultOf, IsFaultOfOrder, IsFaultOfWords};
ghost use Rattle.strsh_options.specs.Fault.{fault_line, fault_of_load};

use clap::error::ErrorKind;
use std::alloc::AllocError;
use std::{fmt, io};
use strm_run_input::RunFault;
use strm_script_orders::{OrderCause, OrderFault};
use strm_script_parse::{Cause, LoadFault, PlayFault, ScriptFault};

/// The reason for which the program prints no transcript. The reasons are looked for in this order.
#[derive(Debug, Drop)]
pub enum Fault {
    /// The command line has a fault, or asks for help or the version.
    Words(clap::Error),
    /// The script cannot be read.
    Read,
    /// The script was read, and it is no script, or memory runs out.
    Script(ScriptFault),
    /// The text is a script, and the command line spells an order that is none of it.
    Order(OrderFault),
    /// The text is a script, and its run gave no transcript.
    Run(RunFault),
    /// The transcript cannot be written.
    Write,
}

impl Fault {
    /// The fault of out of memory for the program's own needs: the words of the command line, and the buffer
    /// of its output.
    pub fn no_memory() -> Self
        ensures { result ≡ Fault.Run RunFaults.NoMem }
    {
        Fault::Run(RunFault::NoMem)
    }

    /// The exit status of the program: 0 if help or the version was asked for, 2 for the command line, the
    /// script and a spelt order, and 1 for the run and the writing. Status 3 is that of no fault: of a
    /// transcript that was printed, with a reply that is not the expected one.
    pub fn status(&self) -> u8
        ensures { EndsWith self.now result }
    {
        match self {
            Fault::Words(error) => u8::try_from(error.exit_code()).unwrap_or(2),
            Fault::Read | Fault::Script(_) | Fault::Order(_) => 2,
            Fault::Run(_) | Fault::Write => 1,
        }
    }
}

/// Printed with its line end, behind the name of the program. A fault of the command line is printed as the
/// text of its parser.
impl fmt::Display for Fault {
    ghost output = { λ fault. fault_line fault };

    fn fmt<W: fmt::Write>(&self, f: &mut fmt::Formatter<W>) -> fmt::Result {
        match self {
            Fault::Words(error) => write!(f, "{error}"),
            Fault::Read => writeln!(f, "strsh: cannot read the script"),
            Fault::Script(fault) => writeln!(f, "strsh: {fault}"),
            Fault::Order(fault) => writeln!(f, "strsh: order {fault}"),
            Fault::Run(fault) => writeln!(f, "strsh: {}", PlayFault::Run(*fault)),
            Fault::Write => writeln!(f, "strsh: cannot write the transcript"),
        }
    }
}

impl From<clap::Error> for Fault {
    ghost from_gives = { λ error fault. IsFaultOf error fault };

    fn from(error: clap::Error) -> Self {
        match error.kind() {
            ErrorKind::OutOfMemory => Fault::no_memory(),
            _ => Fault::Words(error),
        }
    }
}

impl From<LoadFault> for Fault {
    ghost from_gives = { λ load fault. fault ≡ fault_of_load load };

    fn from(fault: LoadFault) -> Self {
        match fault {
            LoadFault::Read => Fault::Read,
            LoadFault::NoMem => Fault::Script(ScriptFault {
                line: 0,
                cause: Cause::NoMemory,
            }),
        }
    }
}

impl From<ScriptFault> for Fault {
    ghost from_gives = { λ script fault. fault ≡ Faults.Script script };

    fn from(fault: ScriptFault) -> Self {
        Fault::Script(fault)
    }
}

/// The fault of a text that spells no order of the script.
impl From<OrderFault> for Fault {
    ghost from_gives = { λ order fault. IsFaultOfOrder order fault };

    fn from(fault: OrderFault) -> Self {
        match fault.cause {
            OrderCause::NoMemory => Fault::no_memory(),
            _ => Fault::Order(fault),
        }
    }
}

impl From<RunFault> for Fault {
    ghost from_gives = { λ run fault. fault ≡ Faults.Run run };

    fn from(fault: RunFault) -> Self {
        Fault::Run(fault)
    }
}

/// Out of memory for the words of the command line.
impl From<AllocError> for Fault {
    ghost from_gives = { λ _ fault. fault ≡ Faults.Run RunFaults.NoMem };

    fn from(_: AllocError) -> Self {
        Fault::no_memory()
    }
}

/// The fault of words of the command line that cannot be read.
impl From<io::Error> for Fault {
    ghost from_gives = { λ error fault. IsFaultOfWords error fault };

    fn from(error: io::Error) -> Self {
        match LoadFault::from(error) {
            LoadFault::Read => Fault::Read,
            LoadFault::NoMem => Fault::no_memory(),
        }
    }
}
