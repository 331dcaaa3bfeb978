//! The reason for which the program prints no transcript, and what it says of it on standard error.
ghost use Rattle.std.specs.Prelude.{◌≡◌, IfSome};
ghost use Rattle.strm_script_explain.specs.Printing.{Explains};
ghost use Rattle.strsh_options.specs.declared.fault.Fault.TheVariants as Faults;

use std::alloc::Global;
use strm_script_explain::{explain, put_explanation};
use strm_script_parse::ScriptFault;
use strsh_options::Fault;

/// The reason for which the program prints no transcript.
#[derive(Drop)]
pub struct Refusal {
    /// The reason.
    pub fault: Fault,
    /// The explanation of a script's fault, for standard error; nothing for another reason, and if memory
    /// runs out.
    pub explanation: Option<Vec<u8>>,
}

/// The text that explains the fault of a script of this name; nothing if memory runs out.
fn explanation(alloc: Global, name: &str, bytes: &[u8], fault: &ScriptFault) -> Option<Vec<u8>>
    ensures { IfSome result (λ text. Explains name.now bytes.now fault.now text.items) }
{
    let Ok(explanation) = explain(alloc, bytes, fault) else {
        return None;
    };
    let mut text = Vec::new(alloc);
    match put_explanation(&mut text, name.as_bytes(), &explanation) {
        Ok(()) => Some(text),
        Err(_) => None,
    }
}

impl Refusal {
    /// The refusal of a script of this name that has a fault.
    pub fn of_script(alloc: Global, name: &str, bytes: &[u8], fault: ScriptFault) -> Refusal
        ensures fault { result.fault ≡ Faults.Script fault }
        ensures text { IfSome result.explanation (λ text. Explains name.now bytes.now fault text.items) }
    {
        Refusal {
            explanation: explanation(alloc, name, bytes, &fault),
            fault: Fault::Script(fault),
        }
    }
}

/// A refusal that is not explained.
impl From<Fault> for Refusal {
    ghost use Rattle.std.specs.Prelude.{None};

    ghost from_gives = { λ fault refusal. (refusal.fault ≡ fault) × (refusal.explanation ≡ None) };

    fn from(fault: Fault) -> Self {
        Refusal {
            fault,
            explanation: None,
        }
    }
}
