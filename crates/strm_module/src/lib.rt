//! Modules of a stream: the interface of a module, vocabularies of kinds with their meaning, and built-in
//! kinds to begin with.
//!
//! A module is between the stream head and the driver. Messages come to it on two sides: on the write side on
//! their way down, to the driver, and on the read side on their way up, to the head (Programmer's Guide:
//! STREAMS, "Modules").
//!
//! A module is an `Instance`: a `Shape`, which is plain data and decides every answer, and an object that
//! acts by it. For the built-in kinds of `Kind` there is `Plain`, which does what its shape says. `Module`
//! explains how to write one that does more. `Kinds` explains how a program gets kinds of its own, and
//! `ModuleOf` how their objects are written.
#![tactic(auto)]

mod acts;
mod boxed;
mod bytes;
mod driver;
mod instance;
mod kind;
mod laws;
mod module;
mod outs;
mod plain;
mod procedures;
mod shape;
mod turn;
mod vocabulary;

pub use boxed::{BoxedModule, BoxedShape};
pub use driver::{Driver, MOST_MODULES};
pub use instance::Instance;
pub use kind::{Kind, MOST_KEPT, MOST_SPLIT};
pub use laws::{builtin_answers_stay, builtin_are_calm};
pub use module::{Module, ModuleOf};
pub use outs::{Outs, Put, both, pass_on, reply};
pub use plain::Plain;
pub use shape::{LONGEST_NAME, MakeFault, Shape};
pub use turn::Turn;
pub use vocabulary::Kinds;
