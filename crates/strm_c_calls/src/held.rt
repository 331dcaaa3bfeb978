//! The stream to which the pointer of an open handle leads.
use strm_head::Stream;
use strm_module::Plain;

/// A stream whose modules are of the built-in kinds, each known by its shape alone.
#[derive(Drop)]
pub struct Held {
    pub stream: Stream<Plain>,
}
