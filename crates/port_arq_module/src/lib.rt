//! The acknowledged link of `port_arq` as a module of streams: a port of a protocol onto kinds of its own.
//!
//! Data goes down into an end of the link, and the module sends frames. Data that comes up is heard as a
//! frame. So over a link that loses, doubles, delays and reorders messages, data goes up at the other end in
//! order, once each ([`modules_carry_data`]). `docs/ARQ.md` explains the protocol.
#![tactic(auto)]

mod arq;
mod kinds;
mod laws;
mod words;

pub use arq::ByShape;
pub use kinds::ArqKind;
pub use laws::{
    arq_answers_stay, arq_is_calm, arq_settles, modules_carry_data, modules_do_as_their_ends,
};
