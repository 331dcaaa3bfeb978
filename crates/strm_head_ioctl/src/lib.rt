//! Calls of a stream head that ask about messages and room, set the way in which reads treat messages, put
//! modules in and take them out, send flushes and ioctls, and close (streamio(7), close(2)).
//!
//! Each call is two functions over a chain: its own refusals, in their order, if it has any, and its effect
//! before any queue moves. The refusals that all calls share, and the services that follow a call, are the
//! stream's.
#![tactic(auto)]

mod ask;
mod closing;
mod flushing;
mod ioctl;
mod later;
mod modules;
mod names;
mod options;
mod outside;
mod polling;
mod ticking;

pub use ask::{canput, ckband, getband, getband_refusal, nread};
pub use closing::close;
pub use flushing::{flush, flush_refusal};
pub use ioctl::{acknowledged, acknowledged_copy, send_ioctl, str_refusal};
pub use later::{strget, strget_refusal, strput, strput_refusal};
pub use modules::{pop, pop_refusal, push, push_refusal};
pub use names::{find, find_refusal, list, look, look_refusal, names_of};
pub use options::{get_read, set_read};
pub use outside::{first_output, has_output, take, take_refusal};
pub use polling::poll;
pub use ticking::{tick, tick_refusal};
