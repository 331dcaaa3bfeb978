//! A module that is known by its shape alone.
use crate::module::Module;

/// Acts by whatever shape it is with, and keeps nothing: the object for a module that is known by its shape
/// alone.
#[derive(Debug, Drop)]
pub struct Plain;

impl Module for Plain {}
