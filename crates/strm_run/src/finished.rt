//! The streams of a run when all have played.
ghost use Rattle.std.specs.Prelude.{◌≡◌, length, IfOk};
ghost use Rattle.strm_run_callers.specs.Play.{AreStreams};
ghost use Rattle.strm_run.specs.Inside.Ending.{streams_of, AreSeatsPlayed, HaveParts, IsFinishedStream};

use std::alloc::Global;
use std::marker::Model;
use std::mem;
use strm_module::ModuleOf;
use strm_msg::NoMem;
use strm_run_callers::{Account, FeedResult, Of, RunName, Streams};
use strm_shared::Shared;

/// A stream of a run on which all have played, with the receipts of its callers and the result of its feed. A
/// contract sees the stream, the accounts of its callers, and that result.
#[derive(Drop)]
pub(crate) struct FinishedStream<M: ModuleOf, N: RunName<M::Kind>> {
    shared: Shared<M, Of<N>>,
    accounts: Vec<Account<M::Kind, N>>,
    fed: Option<FeedResult<M::Kind, N>>,
}

impl<M: ModuleOf, N: RunName<M::Kind>> Model for FinishedStream<M, N> {
    ghost use Rattle.strm_run.specs.Inside.Ending.{FinishedStreamValue, IsFinishedStream};

    ghost Value = { FinishedStreamValue M.Kind };

    ghost view = { λ d. record { stream = d.shared; accounts = d.accounts.items; fed = d.fed } };

    ghost invariant = { λ d. IsFinishedStream N.run d.shared d.accounts.items };
}

impl<M: ModuleOf, N: RunName<M::Kind>> FinishedStream<M, N> {
    /// A stream on which all have played, with the receipts of its callers and the result of its feed.
    fn new(
        shared: Shared<M, Of<N>>,
        accounts: Vec<Account<M::Kind, N>>,
        fed: Option<FeedResult<M::Kind, N>>,
    ) -> FinishedStream<M, N>
        requires { IsFinishedStream N.run shared accounts.items }
        ensures { result ≡ record { stream = shared; accounts = accounts.items; fed = fed } }
    {
        FinishedStream {
            shared,
            accounts,
            fed,
        }
    }

    /// The stream, the receipts of its callers, and the result of its feed.
    pub(crate) fn into_parts(
        self,
    ) -> (
        Shared<M, Of<N>>,
        Vec<Account<M::Kind, N>>,
        Option<FeedResult<M::Kind, N>>,
    )
        ensures stream { result.0 ≡ self.stream }
        ensures accounts { result.1.items ≡ self.accounts }
        ensures fed { result.2 ≡ self.fed }
        ensures due { IsFinishedStream N.run self.stream self.accounts }
    {
        let FinishedStream {
            shared,
            accounts,
            fed,
        } = self;
        (shared, accounts, fed)
    }
}

/// The streams of a run on which all have played, in order. Fails only when memory runs out.
pub(crate) fn finished_streams<M: ModuleOf, N: RunName<M::Kind>>(
    alloc: Global,
    streams: Streams<M, N>,
    mut accounts: Vec<Vec<Account<M::Kind, N>>>,
    mut results: Vec<Option<FeedResult<M::Kind, N>>>,
) -> Result<Vec<FinishedStream<M, N>>, NoMem>
    requires seats { AreSeatsPlayed N.run accounts.items }
    requires results { length results.items ≡ length N.run.setups }
    ensures streams { IfOk result (λ due. AreStreams N.run (streams_of due.items)) }
    ensures parts { IfOk result (λ due. HaveParts due.items accounts.items results.items) }
{
    let mut all = Vec::new(alloc);
    let mut at: usize = 0;
    for shared in streams.into_all() {
        let mine = mem::replace(&mut accounts[at], Vec::new(alloc));
        all.push(FinishedStream::new(shared, mine, results[at].take()))?;
        at += 1;
    }
    Ok(all)
}
