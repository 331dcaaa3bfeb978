//! The streams of a run.
ghost use Rattle.std.specs.Prelude.{◌≡◌, ◌<◌, length};
ghost use Rattle.strm_run_callers.specs.Play.{AreStreams};

use crate::offered_feeds::OfferedFeeds;
use crate::run_name::{Of, RunName};
use std::marker::Model;
use strm_module::ModuleOf;
use strm_shared::Shared;

/// The streams of a run, in order of their numbers, each shared by all callers, and the feeds that have been
/// offered to them.
#[derive(Drop)]
pub struct Streams<M: ModuleOf, N: RunName<M::Kind>> {
    all: Vec<Shared<M, Of<N>>>,
    offered: OfferedFeeds,
}

impl<M: ModuleOf, N: RunName<M::Kind>> Model for Streams<M, N> {
    ghost use Rattle.std.specs.Prelude.{List};
    ghost use Rattle.strm_shared.specs.Ending.{SharedValue};
    ghost use Rattle.strm_run_callers.specs.Play.{AreStreams};

    ghost Value = { List SharedValue };

    ghost view = { λ s. s.all.items };

    ghost invariant = { λ s. AreStreams N.run s.all.items };
}

impl<M: ModuleOf, N: RunName<M::Kind>> Streams<M, N> {
    /// The streams of a run, made in order, and the feeds that need not be offered to them.
    pub fn new(all: Vec<Shared<M, Of<N>>>, offered: OfferedFeeds) -> Streams<M, N>
        requires { AreStreams N.run all.items }
        ensures { result ≡ all.items }
    {
        Streams { all, offered }
    }

    /// The feeds that have been offered.
    pub fn offered(&self) -> &OfferedFeeds {
        &self.offered
    }

    /// The stream of this number.
    pub fn at(&self, number: u32) -> &Shared<M, Of<N>>
        requires { number < length N.run.setups }
        ensures { result.now.number ≡ number }
    {
        &self.all[number as usize]
    }

    /// The streams, in order.
    pub fn into_all(self) -> Vec<Shared<M, Of<N>>>
        ensures all { result.items ≡ self }
        ensures streams { AreStreams N.run self }
    {
        let Streams { all, offered } = self;
        drop(offered);
        all
    }
}
