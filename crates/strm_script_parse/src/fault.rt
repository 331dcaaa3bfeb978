//! The reasons for which a script is not read or not played.
ghost use Rattle.std.specs.Prelude.{Some};
ghost use Rattle.strm_script_parse.specs.Fault.{fault_text, play_fault_text};

use std::fmt;
use strm_msg::NoMem;
use strm_run_input::RunFault;
use strm_script_words::Cause;
use thiserror::Error;

/// The reason for which a script is not read: the first line with a fault, and its cause.
#[derive(Clone, Copy, Debug, PartialEq, Eq, Error)]
pub struct ScriptFault {
    /// The line, counted from 1. It is 0 for a fault of the script as a whole, or of memory.
    pub line: u64,
    /// The cause of the fault.
    pub cause: Cause,
}

/// Printed as `line N: C TEXT`, with the number and the text of the cause.
impl fmt::Display for ScriptFault {
    ghost output = { λ fault. Some (fault_text fault) };

    fn fmt<W: fmt::Write>(&self, f: &mut fmt::Formatter<W>) -> fmt::Result {
        let number = self.cause.number();
        let text = self.cause.text();
        write!(f, "line {}: {number} {text}", self.line)
    }
}

/// The reason for which a script was not played.
#[derive(Clone, Copy, Debug, PartialEq, Eq, Error)]
pub enum PlayFault {
    /// The text is no script.
    Script(ScriptFault),
    /// The script was read, and its run gave no transcript.
    Run(RunFault),
}

/// Printed as `line N: C TEXT`, or as `run fault N TEXT`.
impl fmt::Display for PlayFault {
    ghost output = { λ fault. Some (play_fault_text fault) };

    fn fmt<W: fmt::Write>(&self, f: &mut fmt::Formatter<W>) -> fmt::Result {
        match self {
            PlayFault::Script(fault) => write!(f, "{fault}"),
            PlayFault::Run(fault) => {
                let number = fault.number();
                let text = fault.text();
                write!(f, "run fault {number} {text}")
            }
        }
    }
}

impl From<ScriptFault> for PlayFault {
    ghost use Rattle.std.specs.Prelude.{◌≡◌};
    ghost use Rattle.strm_script_parse.specs.declared.fault.PlayFault.TheVariants as Faults;

    ghost from_gives = { λ fault made. made ≡ Faults.Script fault };

    fn from(fault: ScriptFault) -> Self {
        PlayFault::Script(fault)
    }
}

impl From<RunFault> for PlayFault {
    ghost use Rattle.std.specs.Prelude.{◌≡◌};
    ghost use Rattle.strm_script_parse.specs.declared.fault.PlayFault.TheVariants as Faults;

    ghost from_gives = { λ fault made. made ≡ Faults.Run fault };

    fn from(fault: RunFault) -> Self {
        PlayFault::Run(fault)
    }
}

/// Out of memory between reading and running counts as a fault of the run.
impl From<NoMem> for PlayFault {
    ghost use Rattle.std.specs.Prelude.{◌≡◌};
    ghost use Rattle.strm_run_input.specs.declared.fault.RunFault.{RunFault};
    ghost use Rattle.strm_script_parse.specs.declared.fault.PlayFault.TheVariants as Faults;

    ghost from_gives = { λ _ made. made ≡ Faults.Run RunFault.NoMem };

    fn from(_: NoMem) -> Self {
        PlayFault::Run(RunFault::NoMem)
    }
}
