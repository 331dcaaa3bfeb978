//! Parts of a history on their way to who takes them.
use strm_head_calls::Setup;
use strm_shared_entry::Kept;

/// A part of a history, with the setup of its stream.
#[derive(Drop)]
pub(crate) struct Part<K> {
    pub(crate) setup: Setup,
    pub(crate) entries: Vec<Kept<K>>,
}
