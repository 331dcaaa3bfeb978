//! The streams that a script has declared up to a line.
ghost use Rattle.strm_script_parse.specs.Last.{IsKnown};
ghost use Rattle.strm_script_parse.specs.Streams.{streams_of};

use crate::plan::Name;
use indexmap::IndexMap;
use strm_head_calls::Setup;
use strm_module::Driver;

/// A stream that was found by its name.
#[derive(Drop)]
pub(crate) struct Found {
    /// Its name.
    pub(crate) name: Name,
    /// Its number.
    pub(crate) number: u32,
    /// Its driver.
    pub(crate) driver: Driver,
}

/// The streams that were declared, and the one that was found last. Calls that follow each other mostly go to
/// one stream, which then need not be looked for.
#[derive(Drop)]
pub(crate) struct Declared {
    /// The setup of each stream, by its name.
    pub(crate) map: IndexMap<Name, Setup>,
    /// The stream that was found last, if one was found since the last declaration.
    pub(crate) last: Option<Found>,
    ghost known: { IsKnown (streams_of map) last },
}
