//! The order in which one thread plays a run.
ghost use Rattle.std.specs.Prelude.{◌<◌};

/// The choice of who goes next, in a run that one thread plays call by call.
pub trait Order {
    /// The number of the one that goes next, of this many that may, counted from 0.
    fn next(&mut self, many: usize) -> usize
        requires { 0 < many }
        ensures { result < many };
}
