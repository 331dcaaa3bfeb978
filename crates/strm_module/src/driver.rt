//! The drivers at the bottom of a stream, and the number of modules that can be above them.
ghost use Rattle.std.specs.Prelude.{◌≡◌};
ghost use Rattle.strm_module.specs.Driver.{has_end, partner, is_line, is_wire, input_end, is_serviced, driver_name};

use strm_msg::End;

/// The most modules that an end can have.
pub const MOST_MODULES: usize = 8;

/// The driver at the bottom of a stream.
#[derive(Clone, Copy, Debug, PartialEq, Eq)]
pub enum Driver {
    /// Sends messages that come down back up the same end. An ioctl of command `SETOPTS` makes it send the
    /// options for the head up that the ioctl asks for.
    Echo,
    /// Sends messages that come down one end up the other.
    Loop,
    /// Consumes data and protocol messages that come down, answers flushes and ioctls, and sends up messages
    /// that come in from a line.
    Line,
    /// Keeps data and protocol messages that come down until they are taken from outside, answers flushes and
    /// ioctls, and sends up messages that come in from a line. It is a loop of which the outside has end B.
    Wire,
}

impl Driver {
    /// Whether it has an end: each has end A, and a loop has end B too.
    pub fn has_end(self, end: End) -> bool
        ensures { result ≡ has_end self end }
    {
        match end {
            End::A => true,
            End::B => self == Driver::Loop,
        }
    }

    /// The end up whose read side it sends messages that came down an end, and to which the hangup goes when
    /// that one is closed.
    pub fn partner_of(self, end: End) -> End
        ensures { result ≡ partner self end }
    {
        match (self, end) {
            (Driver::Loop, End::A) => End::B,
            (Driver::Loop, End::B) => End::A,
            (Driver::Wire, End::A) => End::B,
            (Driver::Wire, End::B) => End::A,
            _ => end,
        }
    }

    /// Whether messages come to it from a line.
    pub fn is_line(self) -> bool
        ensures { result ≡ is_line self }
    {
        matches!(self, Driver::Line | Driver::Wire)
    }

    /// Whether messages that come down are taken from outside.
    pub fn is_wire(self) -> bool
        ensures { result ≡ is_wire self }
    {
        self == Driver::Wire
    }

    /// The end whose list holds messages that came in from a line.
    pub fn input_end(self) -> End
        ensures { result ≡ input_end self }
    {
        match self {
            Driver::Wire => End::B,
            _ => End::A,
        }
    }

    /// Whether the driver's list for an end is serviced, so that its messages go up.
    pub fn services(self, end: End) -> bool
        ensures { result ≡ is_serviced self end }
    {
        match (self, end) {
            (Driver::Wire, End::A) => false,
            (Driver::Wire, End::B) => true,
            _ => self.has_end(end),
        }
    }

    /// Its name, as in a list of the names on an end (streamio(7), I_LIST).
    pub fn name(self) -> &'static [u8]
        ensures { result.now ≡ driver_name self }
    {
        match self {
            Driver::Echo => b"echo",
            Driver::Loop => b"loop",
            Driver::Line => b"line",
            Driver::Wire => b"wire",
        }
    }
}
