//! The modes of a terminal.
ghost use Rattle.std.specs.Prelude.{◌≡◌, if◌then◌else◌};
ghost use Rattle.port_termio.specs.Edit.{meant};
ghost use Rattle.port_termio.specs.Modes.{has_mode, modes_bytes, modes_in, modes_number, modes_of};

/// The key CR (^M).
const CR: u8 = 13;

/// The key NL (^J).
pub(crate) const NL: u8 = 10;

/// The modes of a terminal that decide what a key does (termio(7)).
#[derive(Clone, Copy, Debug, PartialEq, Eq)]
pub struct Modes {
    /// ICANON: keys go up in lines, which can be edited until they end. Without it each key goes up by
    /// itself.
    pub icanon: bool,
    /// ECHO: keys are shown.
    pub echo: bool,
    /// ICRNL: a CR that is typed is an NL.
    pub icrnl: bool,
    /// ONLCR: an NL that is written is shown as a CR and an NL.
    pub onlcr: bool,
}

/// The command of the ioctl that asks for the modes.
pub const GET_MODES: u32 = 1;

/// The command of the ioctl that sets the modes.
pub const SET_MODES: u32 = 2;

/// What ICANON counts in the number of the modes.
const ICANON: u8 = 1;

/// What ECHO counts.
const ECHO: u8 = 2;

/// What ICRNL counts.
const ICRNL: u8 = 4;

/// What ONLCR counts.
const ONLCR: u8 = 8;

/// The number of all modes together.
const ALL_MODES: u8 = 15;

/// What a mode counts, if it is there.
fn counted(has: bool, mode: u8) -> u8
    ensures { result ≡ (if has then mode else 0) }
{
    if has { mode } else { 0 }
}

/// Whether a mode is in a number.
fn has_mode(number: u8, mode: u8) -> bool
    ensures { result ≡ has_mode number mode }
{
    number & mode != 0
}

impl Modes {
    /// The key that is meant: with ICRNL a CR means NL. Every other key means itself.
    pub fn meant(self, key: u8) -> u8
        ensures { result ≡ meant self key }
    {
        if self.icrnl && key == CR { NL } else { key }
    }

    /// The modes as the four bytes of an ioctl, the greatest first. ICANON counts 1, ECHO 2, ICRNL 4 and
    /// ONLCR 8.
    pub fn bytes(self) -> [u8; 4]
        ensures { result ≡ modes_bytes self }
    {
        let number = counted(self.icanon, ICANON)
            + counted(self.echo, ECHO)
            + counted(self.icrnl, ICRNL)
            + counted(self.onlcr, ONLCR);
        [0, 0, 0, number]
    }

    /// The modes of a number.
    fn of_number(number: u8) -> Modes
        ensures { result ≡ modes_of number }
    {
        Modes {
            icanon: has_mode(number, ICANON),
            echo: has_mode(number, ECHO),
            icrnl: has_mode(number, ICRNL),
            onlcr: has_mode(number, ONLCR),
        }
    }

    /// The modes of four bytes, as `bytes` gives them. `None` where they are no such bytes.
    pub fn of(bytes: &[u8]) -> Option<Modes>
        ensures { result ≡ modes_in bytes.now }
    {
        if bytes.len() != 4 || bytes[0] != 0 || bytes[1] != 0 || bytes[2] != 0 {
            return None;
        }
        if bytes[3] > ALL_MODES {
            return None;
        }
        Some(Modes::of_number(bytes[3]))
    }
}
