//! Events on a stream.
use crate::request::Request;
use strm_msg::BoxedMessage;

/// An event: one thing that happens to a stream. A push carries `P`: the module when the call is made, and
/// the module's shape in a history.
#[derive(Drop)]
pub enum Event<P> {
    /// A call was made.
    Asked(Request<P>),
    /// A message came in from a line.
    Arrived(BoxedMessage),
}
